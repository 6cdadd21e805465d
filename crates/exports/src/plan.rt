// The plan calls, by the placement of the breaks.
ghost use Rattle.std.specs.Prelude.{◌≡◌, [], ◌∷◌};
ghost use Rattle.definitions.specs.Placement.{by_clock, by_pay};
ghost use Rattle.definitions.specs.Room.{short};
ghost use Rattle.placements.specs.Chosen.{placement_of};
ghost use Rattle.exports.specs.Plan.{plan_needs, plan_outputs, PlanKept};

use cut_table::cells::MOST_CUT;
use models::placement::Placement;
use refuse_lists::lengths;
use sheet_plan::stored::plan_sheet;
use sheet_read::read::{Reading, read};

// Whether a lent list is too short for some plan.
fn too_short(served: usize, ends: usize, breaks: usize, starts: usize, dropped: usize) -> bool
    ensures { result ≡ short plan_needs (served ∷ ends ∷ breaks ∷ starts ∷ dropped ∷ []) }
{
    let needs = [MOST_CUT, MOST_CUT, MOST_CUT, MOST_CUT, MOST_CUT];
    let rooms = [served, ends, breaks, starts, dropped];
    lengths::short(&needs, &rooms)
}

// The plan of the sheet that the bytes are, with the breaks where the placement puts them. At the front of the lists,
// each of which needs room for 63, stand the customers served, the run ends, the number of the call, from 1, at which
// each run takes its break, or 0, when that break starts, or 0.0, and the positions of the dropped calls; all but the
// starts have a byte each. `counts` has how many calls are served, runs made and calls dropped, `totals` cost and
// distance. The answer is 0, or the number of a refusal: then its word alone is written.
fn plan_by(
    sheet: &[u8],
    placement: Placement,
    served: &mut [u8],
    run_ends: &mut [u8],
    break_places: &mut [u8],
    break_starts: &mut [f64],
    dropped: &mut [u8],
    counts: &mut [usize; 3],
    totals: &mut [f64; 2],
    word: &mut usize,
) -> u32
    ensures { let old = plan_outputs word.old served.old run_ends.old
        break_places.old break_starts.old dropped.old
        counts.old totals.old in
        let new = plan_outputs word.new served.new run_ends.new
        break_places.new break_starts.new dropped.new
        counts.new totals.new in
        PlanKept (placement_of placement) sheet.now old result new }
{
    if too_short(
        served.len(),
        run_ends.len(),
        break_places.len(),
        break_starts.len(),
        dropped.len(),
    ) {
        *word = 0;
        return 13;
    }
    match read(sheet) {
        Reading::Refused(number, at) => {
            *word = at;
            number
        }
        Reading::Sheet(found) => {
            let cut = plan_sheet(
                sheet,
                found,
                placement,
                &mut *served,
                &mut *run_ends,
                &mut *break_places,
                &mut *break_starts,
                &mut *dropped,
            );
            *counts = [cut.served, cut.runs, cut.dropped];
            *totals = [cut.cost, cut.distance];
            0
        }
    }
}

// The plan with the breaks where the clock puts them.
#[unsafe(no_mangle)]
pub extern "C" fn lizsomdur_3_plan(
    sheet: &[u8],
    served: &mut [u8],
    run_ends: &mut [u8],
    break_places: &mut [u8],
    break_starts: &mut [f64],
    dropped: &mut [u8],
    counts: &mut [usize; 3],
    totals: &mut [f64; 2],
    word: &mut usize,
) -> u32
    ensures { let old = plan_outputs word.old served.old run_ends.old
        break_places.old break_starts.old dropped.old
        counts.old totals.old in
        let new = plan_outputs word.new served.new run_ends.new
        break_places.new break_starts.new dropped.new
        counts.new totals.new in
        PlanKept by_clock sheet.now old result new }
{
    plan_by(
        sheet,
        Placement::Clock,
        &mut *served,
        &mut *run_ends,
        &mut *break_places,
        &mut *break_starts,
        &mut *dropped,
        &mut *counts,
        &mut *totals,
        &mut *word,
    )
}

// The plan that pays the least for lateness, wherever the breaks go.
#[unsafe(no_mangle)]
pub extern "C" fn lizsomdur_3_plan_least(
    sheet: &[u8],
    served: &mut [u8],
    run_ends: &mut [u8],
    break_places: &mut [u8],
    break_starts: &mut [f64],
    dropped: &mut [u8],
    counts: &mut [usize; 3],
    totals: &mut [f64; 2],
    word: &mut usize,
) -> u32
    ensures { let old = plan_outputs word.old served.old run_ends.old
        break_places.old break_starts.old dropped.old
        counts.old totals.old in
        let new = plan_outputs word.new served.new run_ends.new
        break_places.new break_starts.new dropped.new
        counts.new totals.new in
        PlanKept by_pay sheet.now old result new }
{
    plan_by(
        sheet,
        Placement::Least,
        &mut *served,
        &mut *run_ends,
        &mut *break_places,
        &mut *break_starts,
        &mut *dropped,
        &mut *counts,
        &mut *totals,
        &mut *word,
    )
}
