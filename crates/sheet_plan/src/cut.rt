// The cut of the tour on a sheet that is held in memory.
ghost use Rattle.std.specs.Prelude.{◌≤◌, length};
ghost use Rattle.cut_theory.specs.Tab.{most_cut};
ghost use Rattle.definitions.specs.Sheet.{Sheet};
ghost use Rattle.definitions.specs.Drop.{split_by};
ghost use Rattle.placements.specs.Chosen.{placement_of};
ghost use Rattle.sheet_loaded.specs.Held.{InMemory, Held};
ghost use Rattle.sheet_plan.specs.Cut.{cut_lists, CutLeft};

use models::customer::Customer;
use models::head::Head;
use models::placement::Placement;
use split_tw::answer::SplitResult;
use split_tw::split_tw::split_tw;

// The served customers, the run ends and the dropped positions are written at the front of the lists.
pub fn cut_held(
    tour: &[usize],
    head: Head,
    customers: [Customer; 64],
    distances: &[f64],
    times: &[f64],
    placement: Placement,
    served: &mut [usize],
    run_ends: &mut [usize],
    dropped: &mut [usize],
) -> SplitResult
    requires held { Held tour.now head customers distances.now times.now }
    requires most_cut_in_bounds { (most_cut ≤ length served.old) × (most_cut ≤ length run_ends.old)
        × (most_cut ≤ length dropped.old) }
    ensures { let old = cut_lists served.old run_ends.old dropped.old in
        let new = cut_lists served.new run_ends.new dropped.new in
        ((s : Sheet) → InMemory s tour.now head customers distances.now times.now
        → CutLeft (split_by (placement_of placement) s tour.now) result old new) }
{
    split_tw(
        tour,
        customers,
        distances,
        times,
        head.places,
        head.capacity,
        head.fixed_cost,
        head.limits,
        placement,
        &mut *served,
        &mut *run_ends,
        &mut *dropped,
    )
}
