// The plan of a sheet in memory, written to lists: its tour is cut, and the breaks of the runs are found.
ghost use Rattle.definitions.specs.Sheet.{Sheet};
ghost use Rattle.placements.specs.Chosen.{placement_of};
ghost use Rattle.sheet_loaded.specs.Held.{InMemory, Held};
ghost use Rattle.sheet_plan.specs.Plan.{plan, plan_lists, Roomy, Left};

use crate::breaks::write_breaks;
use crate::cut::cut_held;
use models::customer::Customer;
use models::head::Head;
use models::placement::Placement;
use split_tw::answer::SplitResult;

// The plan of the tour on the sheet that is held, with the breaks where the placement puts them. Its lists are written
// at the front of those lent; what the cut comes to is returned.
pub fn plan_held(
    tour: &[usize],
    head: Head,
    customers: [Customer; 64],
    distances: &[f64],
    times: &[f64],
    placement: Placement,
    served: &mut [usize],
    run_ends: &mut [usize],
    break_places: &mut [usize],
    break_starts: &mut [f64],
    dropped: &mut [usize],
) -> SplitResult
    requires held { Held tour.now head customers distances.now times.now }
    requires roomy { Roomy (plan_lists served.old run_ends.old break_places.old
        break_starts.old dropped.old) }
    ensures { let old = plan_lists served.old run_ends.old break_places.old
        break_starts.old dropped.old in
        let new = plan_lists served.new run_ends.new break_places.new
        break_starts.new dropped.new in
        ((s : Sheet) → InMemory s tour.now head customers distances.now times.now
        → Left (plan (placement_of placement) s tour.now) result old new) }
{
    let cut = cut_held(
        tour,
        head,
        customers,
        distances,
        times,
        placement,
        &mut *served,
        &mut *run_ends,
        &mut *dropped,
    );
    write_breaks(
        &served[..cut.served],
        &run_ends[..cut.runs],
        customers,
        distances,
        times,
        head.places,
        head.limits,
        placement,
        &mut *break_places,
        &mut *break_starts,
    );
    cut
}
