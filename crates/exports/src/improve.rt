// The improvers' calls. Each customer and run end has a byte.
ghost use Rattle.definitions.specs.Bytes.{numbers_of};
ghost use Rattle.bytes_improve.specs.Improve.{runs};
ghost use Rattle.exports.specs.Improve.{reverse_outputs, ReverseKept, eliminate_outputs, EliminateKept};

use bytes_improve::improve::{eliminate_sheet, reverse_sheet};
use call_improvers::eliminating::Elimination;
use call_improvers::reversing::Reversed;
use sheet_read::read::{Reading, read};

// The run given with stretches of its calls reversed, on the sheet that the bytes are: its calls at the front of the
// lent list, and its distance. The answer is 0, or the number of a refusal: the reader's, whose word is written, or the
// call's, which leaves everything as it was.
#[unsafe(no_mangle)]
pub extern "C" fn lizsomdur_3_reverse(
    sheet: &[u8],
    run: &[u8],
    improved: &mut [u8],
    word: &mut usize,
    distance: &mut f64,
) -> u32
    ensures { let old = reverse_outputs word.old improved.old distance.old in
        let new = reverse_outputs word.new improved.new distance.new in
        ReverseKept sheet.now (numbers_of run.now) old result new }
{
    match read(sheet) {
        Reading::Refused(number, at) => {
            *word = at;
            number
        }
        Reading::Sheet(found) => match reverse_sheet(sheet, found, run, &mut *improved) {
            Reversed::Refused(number) => number,
            Reversed::Improved(left) => {
                *distance = left.distance;
                0
            }
        },
    }
}

// The runs given with each that can be emptied into the others emptied, on the sheet that the bytes are: the calls and
// run ends that are left at the front of the lent lists, and how many calls and runs these are. The answer is 0, or the
// number of a refusal: the reader's, whose word is written, or the call's, which leaves everything as it was.
#[unsafe(no_mangle)]
pub extern "C" fn lizsomdur_3_eliminate(
    sheet: &[u8],
    calls: &[u8],
    ends: &[u8],
    left_calls: &mut [u8],
    left_ends: &mut [u8],
    word: &mut usize,
    counts: &mut [usize; 2],
) -> u32
    ensures { let given = runs (numbers_of calls.now) (numbers_of ends.now) in
        let left = runs left_calls.old left_ends.old in
        let old = eliminate_outputs word.old left counts.old in
        let left = runs left_calls.new left_ends.new in
        let new = eliminate_outputs word.new left counts.new in
        EliminateKept sheet.now given old result new }
{
    match read(sheet) {
        Reading::Refused(number, at) => {
            *word = at;
            number
        }
        Reading::Sheet(found) => {
            match eliminate_sheet(sheet, found, calls, ends, &mut *left_calls, &mut *left_ends) {
                Elimination::Refused(number) => number,
                Elimination::Left(left) => {
                    *counts = [left.calls, left.runs];
                    0
                }
            }
        }
    }
}
