// The mark calls, by the placement of the breaks in the plan that is marked against.
ghost use Rattle.definitions.specs.Bytes.{numbers_of};
ghost use Rattle.definitions.specs.Placement.{by_clock, by_pay};
ghost use Rattle.placements.specs.Chosen.{placement_of};
ghost use Rattle.bytes_mark.specs.Mark.{given_runs};
ghost use Rattle.exports.specs.Mark.{mark_outputs, MarkKept, NeverCheaper};

use bytes_mark::mark::mark_sheet;
use bytes_mark::values::{number_of, write_values};
use call_cuts::marking::Marking;
use models::placement::Placement;
use sheet_read::read::{Reading, read};

// The verdict on the runs given, by number and values, against the plan of the sheet that the bytes are, which has its
// breaks where the placement puts them. Each customer, run end and break place has a byte; `breaks` has a place for
// each run, from 1, or 0 for none. The answer is 0, or the number of a refusal: the reader's, whose word is written, or
// the call's, which leaves everything as it was.
fn mark_by(
    sheet: &[u8],
    calls: &[u8],
    ends: &[u8],
    breaks: &[u8],
    placement: Placement,
    word: &mut usize,
    verdict: &mut u32,
    values: &mut [f64; 5],
) -> u32
    ensures { let given = given_runs (numbers_of calls.now) (numbers_of ends.now)
        (numbers_of breaks.now) in
        let old = mark_outputs word.old verdict.old values.old in
        let new = mark_outputs word.new verdict.new values.new in
        MarkKept (placement_of placement) sheet.now given old result new }
{
    match read(sheet) {
        Reading::Refused(number, at) => {
            *word = at;
            number
        }
        Reading::Sheet(found) => match mark_sheet(sheet, found, calls, ends, breaks, placement) {
            Marking::Refused(number) => number,
            Marking::Verdict(v) => {
                *verdict = number_of(v);
                write_values(v, &mut *values);
                0
            }
        },
    }
}

// Against the plan with the breaks where the clock puts them.
#[unsafe(no_mangle)]
pub extern "C" fn lizsomdur_3_mark(
    sheet: &[u8],
    calls: &[u8],
    ends: &[u8],
    breaks: &[u8],
    word: &mut usize,
    verdict: &mut u32,
    values: &mut [f64; 5],
) -> u32
    ensures { let given = given_runs (numbers_of calls.now) (numbers_of ends.now)
        (numbers_of breaks.now) in
        let old = mark_outputs word.old verdict.old values.old in
        let new = mark_outputs word.new verdict.new values.new in
        MarkKept by_clock sheet.now given old result new }
{
    mark_by(
        sheet,
        calls,
        ends,
        breaks,
        Placement::Clock,
        &mut *word,
        &mut *verdict,
        &mut *values,
    )
}

// Against the plan that pays the least for lateness: nothing is cheaper than that.
#[unsafe(no_mangle)]
pub extern "C" fn lizsomdur_3_mark_least(
    sheet: &[u8],
    calls: &[u8],
    ends: &[u8],
    breaks: &[u8],
    word: &mut usize,
    verdict: &mut u32,
    values: &mut [f64; 5],
) -> u32
    ensures fact { let given = given_runs (numbers_of calls.now) (numbers_of ends.now)
        (numbers_of breaks.now) in
        let old = mark_outputs word.old verdict.old values.old in
        let new = mark_outputs word.new verdict.new values.new in
        MarkKept by_pay sheet.now given old result new }
    ensures never_cheaper { let given = given_runs (numbers_of calls.now) (numbers_of ends.now)
        (numbers_of breaks.now) in
        NeverCheaper sheet.now given verdict.new }
{
    mark_by(
        sheet,
        calls,
        ends,
        breaks,
        Placement::Least,
        &mut *word,
        &mut *verdict,
        &mut *values,
    )
}
