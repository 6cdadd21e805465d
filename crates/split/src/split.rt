// The cut of a tour by loads and closed legs alone (ga/split.rs).
ghost use Rattle.std.specs.Prelude.{◌≡◌, ◌≤◌, length};
ghost use Rattle.cut_theory.specs.Tab.{most_cut};
ghost use Rattle.definitions.specs.Room.{written};
ghost use Rattle.cut_stops.specs.Stops.{Below64};
ghost use Rattle.split_tw.specs.Answer.{Counted};
ghost use Rattle.split_tw.specs.SplitTw.{split_tw_f};
ghost use Rattle.split.specs.Split.{bare_lent};

use cut_runs::terms::Terms;
use models::customer::Customer;
use models::limits::RouteLimits;
use models::load::Space;
use models::placement::Placement;
use split_tw::answer::SplitResult;
use split_tw::split_tw::cut;

// Calls are dropped until every beginning of those held can be cut, and these are cut at least cost: no window,
// limit or break bars a run. The served customers, the run ends and the dropped positions are written at the
// front of the lent lists.
pub fn split(
    tour: &[usize],
    customers: [Customer; 64],
    distances: &[f64],
    times: &[f64],
    size: usize,
    capacity: Space,
    fixed: f64,
    served: &mut [usize],
    run_ends: &mut [usize],
    dropped: &mut [usize],
) -> SplitResult
    requires tour_len_bound { (length tour.now ≤ most_cut) × Below64 tour.now }
    requires tour_in_bounds { (length tour.now ≤ length served.old)
        × (length tour.now ≤ length run_ends.old)
        × (length tour.now ≤ length dropped.old) }
    ensures fact { let plan = split_tw_f (bare_lent customers distances.now times.now size capacity fixed)
        tour.now in
        Counted plan result.served result.runs result.dropped result.cost result.distance }
    ensures served_after { let plan = split_tw_f (bare_lent customers distances.now times.now size capacity fixed)
        tour.now in
        served.new ≡ written plan.served served.old }
    ensures run_ends_after { let plan = split_tw_f (bare_lent customers distances.now times.now size capacity fixed)
        tour.now in
        run_ends.new ≡ written plan.ends run_ends.old }
    ensures dropped_after { let plan = split_tw_f (bare_lent customers distances.now times.now size capacity fixed)
        tour.now in
        dropped.new ≡ written plan.dropped dropped.old }
{
    let limits = RouteLimits {
        max_distance: None,
        max_duration: None,
        rest: None,
    };
    let terms = Terms {
        capacity,
        fixed,
        limits,
        placement: Placement::Clock,
        loads_alone: true,
    };
    cut(
        tour,
        customers,
        distances,
        times,
        size,
        terms,
        &mut *served,
        &mut *run_ends,
        &mut *dropped,
    )
}
