// The call that tells the timeline of a run.
ghost use Rattle.std.specs.Prelude.{◌≡◌, [], ◌∷◌};
ghost use Rattle.definitions.specs.Bytes.{numbers_of};
ghost use Rattle.definitions.specs.Room.{short};
ghost use Rattle.exports.specs.Visits.{visits_needs, visits_outputs, VisitsKept};

use bytes_visits::run::Visiting;
use bytes_visits::sheet::visits_sheet;
use refuse_lists::lengths;
use sheet_read::read::{Reading, read};

// Whether a lent list is too short for some run.
fn too_short(times: usize, loads: usize, violations: usize, figures: usize) -> bool
    ensures { result ≡ short visits_needs (times ∷ loads ∷ violations ∷ figures ∷ []) }
{
    let needs = [384usize, 256, 132, 396];
    let rooms = [times, loads, violations, figures];
    lengths::short(&needs, &rooms)
}

// The timeline of a run, which has a byte for each call, on the sheet that the bytes are, with the break at call number
// `place`, from 1, or 0 for none. At the front of the lists stand, for each call, arrival, service start and departure,
// and the seats and wheelchair places taken after it; for each violation its number and three figures, 0.0 for those
// that it has not. `counts` has how many calls are visited and how many violations there are, and the number of the
// call at which the break is taken, or 0; `totals` distance, duration, lateness, lateness pay and when the break
// starts, or 0.0. The answer is 0, or the number of a refusal: lists too short or the reader's, whose word is written,
// or the call's, which leaves everything as it was.
#[unsafe(no_mangle)]
pub extern "C" fn lizsomdur_3_visits(
    sheet: &[u8],
    run: &[u8],
    place: usize,
    times: &mut [f64],
    loads: &mut [u64],
    violations: &mut [u8],
    figures: &mut [f64],
    counts: &mut [usize; 3],
    totals: &mut [f64; 5],
    word: &mut usize,
) -> u32
    ensures { let old = visits_outputs word.old times.old loads.old violations.old
        figures.old counts.old totals.old in
        let new = visits_outputs word.new times.new loads.new violations.new
        figures.new counts.new totals.new in
        VisitsKept sheet.now (numbers_of run.now) place old result new }
{
    if too_short(times.len(), loads.len(), violations.len(), figures.len()) {
        *word = 0;
        return 13;
    }
    match read(sheet) {
        Reading::Refused(number, at) => {
            *word = at;
            number
        }
        Reading::Sheet(found) => match visits_sheet(
            sheet,
            found,
            run,
            place,
            &mut *times,
            &mut *loads,
            &mut *violations,
            &mut *figures,
        ) {
            Visiting::Refused(number) => number,
            Visiting::Told(t) => {
                *counts = [t.visits, t.violations, t.place];
                *totals = [t.distance, t.duration, t.lateness, t.lateness_cost, t.start];
                0
            }
        },
    }
}
