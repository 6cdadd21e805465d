// The plan of a sheet with its lists stored in bytes: it is reckoned in arrays of numbers, and what is counted is
// stored. When a break starts is no number of a byte: that list is written as it is.
ghost use Rattle.std.specs.Prelude.{◌≡◌, List, ℕ};
ghost use Rattle.definitions.specs.Sheet.{Sheet};
ghost use Rattle.definitions.specs.Reader as Reader;
ghost use Rattle.placements.specs.Chosen.{placement_of};
ghost use Rattle.sheet_loaded.specs.Held.{InMemory, Held, Found};
ghost use Rattle.sheet_plan.specs.Plan.{plan, plan_lists, Roomy, LeftInBytes};

use crate::plan::plan_held;
use byte_lists::narrow;
use cut_table::cells::MOST_CUT;
use models::customer::Customer;
use models::head::Head;
use models::placement::Placement;
use sheet_loaded::load::load;
use sheet_read::read::Contents;
use split_tw::answer::SplitResult;

// The plan of the tour on the sheet that is held, with the breaks where the placement puts them. Its lists are stored
// at the front of those lent; what the cut comes to is returned.
fn plan_stored(
    tour: &[usize],
    head: Head,
    customers: [Customer; 64],
    distances: &[f64],
    times: &[f64],
    placement: Placement,
    served: &mut [u8],
    run_ends: &mut [u8],
    break_places: &mut [u8],
    break_starts: &mut [f64],
    dropped: &mut [u8],
) -> SplitResult
    requires held { Held tour.now head customers distances.now times.now }
    requires roomy { Roomy (plan_lists served.old run_ends.old break_places.old
        break_starts.old dropped.old) }
    ensures { let old = plan_lists served.old run_ends.old break_places.old
        break_starts.old dropped.old in
        let new = plan_lists served.new run_ends.new break_places.new
        break_starts.new dropped.new in
        ((s : Sheet) → InMemory s tour.now head customers distances.now times.now
        → LeftInBytes (plan (placement_of placement) s tour.now) result old new) }
{
    let mut calls = [0usize; MOST_CUT];
    let mut ends = [0usize; MOST_CUT];
    let mut places = [0usize; MOST_CUT];
    let mut gone = [0usize; MOST_CUT];
    let cut = plan_held(
        tour,
        head,
        customers,
        distances,
        times,
        placement,
        &mut calls,
        &mut ends,
        &mut places,
        &mut *break_starts,
        &mut gone,
    );
    narrow(&calls, cut.served, &mut *served);
    narrow(&ends, cut.runs, &mut *run_ends);
    narrow(&places, cut.runs, &mut *break_places);
    narrow(&gone, cut.dropped, &mut *dropped);
    cut
}

// The same of accepted bytes, of which the reader found so much.
pub fn plan_sheet(
    bytes: &[u8],
    found: Contents,
    placement: Placement,
    served: &mut [u8],
    run_ends: &mut [u8],
    break_places: &mut [u8],
    break_starts: &mut [f64],
    dropped: &mut [u8],
) -> SplitResult
    requires found { Found bytes.now found }
    requires roomy { Roomy (plan_lists served.old run_ends.old break_places.old
        break_starts.old dropped.old) }
    ensures { let old = plan_lists served.old run_ends.old break_places.old
        break_starts.old dropped.old in
        let new = plan_lists served.new run_ends.new break_places.new
        break_starts.new dropped.new in
        ((s : Sheet) (tour : List ℕ) → Reader.read bytes.now ≡ Reader.sheet s tour
        → LeftInBytes (plan (placement_of placement) s tour) result old new) }
{
    let mut distances = [0.0; 4096];
    let mut times = [0.0; 4096];
    let mut tour = [0usize; MOST_CUT];
    let l = load(bytes, found, &mut distances, &mut times, &mut tour);
    let customers = l.customers;
    plan_stored(
        &tour[..l.calls],
        l.head,
        customers,
        &distances[..l.distance_count],
        &times[..l.time_count],
        placement,
        &mut *served,
        &mut *run_ends,
        &mut *break_places,
        &mut *break_starts,
        &mut *dropped,
    )
}
