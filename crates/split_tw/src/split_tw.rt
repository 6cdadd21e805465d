// The cut of a tour on some terms (ga/split_tw.rs), from the calls that are held and the table of their rows
// (cut_heavy) to the answer.
ghost use Rattle.std.specs.Prelude.{◌≡◌, ◌≤◌, length};
ghost use Rattle.cut_theory.specs.Tab.{most_cut, cells};
ghost use Rattle.definitions.specs.Room.{written};
ghost use Rattle.cut_stops.specs.Stops.{Below64};
ghost use Rattle.cut_runs.specs.Runs.{lent_on, lent};
ghost use Rattle.cut_drops.specs.Drops.{drops_f};
ghost use Rattle.split_tw.specs.Answer.{Counted};
ghost use Rattle.split_tw.specs.SplitTw.{Settled, split_tw_f};

use crate::answer::SplitResult;
use cut_heavy::heavy::hold_tour;
use cut_runs::terms::Terms;
use cut_stops::stops::{ALL_CODES, ALL_FIGURES, work_out_calls};
use cut_table::cells::{CELLS, MOST_CUT, read_back};
use cut_table::held::write_front;
use models::customer::Customer;
use models::limits::RouteLimits;
use models::load::Space;
use models::placement::Placement;
use whole::infinity;

// What the drops come to: how many calls are held at the end, and their cut.
#[derive(Clone, Copy)]
pub struct Settlement {
    pub held: usize,
    pub cost: f64,
    pub distance: f64,
    // where the ends of the runs start in `ends`
    pub at: usize,
}

// The calls that stay and their cut. They stand at the front of `held`, and the ends of their runs at
// the end of `ends`.
pub fn settle(
    tour: &[usize],
    customers: [Customer; 64],
    distances: &[f64],
    times: &[f64],
    size: usize,
    terms: Terms,
    held: &mut [usize],
    ends: &mut [usize; CELLS],
    dropped: &mut [usize],
) -> Settlement
    requires tour_len_bound { (length tour.now ≤ most_cut) × Below64 tour.now × (length ends.old ≡ cells) }
    requires tour_in_bounds { (length tour.now ≤ length held.old) × (length tour.now ≤ length dropped.old) }
    ensures fact { let I = lent_on customers distances.now times.now size terms in
        let calls = tour.now in
        Settled I calls result.held result.cost result.distance result.at held.new ends.new }
    ensures dropped_after { let I = lent_on customers distances.now times.now size terms in
        dropped.new ≡ written (drops_f I tour.now).dropped dropped.old }
{
    let mut codes = [0u32; ALL_CODES];
    let mut figures = [0.0; ALL_FIGURES];
    work_out_calls(
        tour,
        customers,
        distances,
        times,
        size,
        &mut codes,
        &mut figures,
    );
    let top = infinity();
    let mut cost = [top; CELLS];
    let mut dist = [0.0; CELLS];
    let mut pred = [0usize; CELLS];
    cost[0] = 0.0;
    let n = hold_tour(
        tour,
        &mut *held,
        &mut *dropped,
        distances,
        times,
        size,
        &codes,
        &figures,
        terms,
        &mut cost,
        &mut dist,
        &mut pred,
    );
    let at = read_back(&pred, n, &mut *ends);
    let total = cost[n];
    let far = dist[n];
    Settlement {
        held: n,
        cost: total,
        distance: far,
        at,
    }
}

// Calls are dropped until every beginning of those held can be cut, and these are cut at least cost.
// The served customers, the run ends and the dropped positions are written at the front of the lent
// lists.
pub fn cut(
    tour: &[usize],
    customers: [Customer; 64],
    distances: &[f64],
    times: &[f64],
    size: usize,
    terms: Terms,
    served: &mut [usize],
    run_ends: &mut [usize],
    dropped: &mut [usize],
) -> SplitResult
    requires tour_len_bound { (length tour.now ≤ most_cut) × Below64 tour.now }
    requires tour_in_bounds { (length tour.now ≤ length served.old)
        × (length tour.now ≤ length run_ends.old)
        × (length tour.now ≤ length dropped.old) }
    ensures fact { let I = lent_on customers distances.now times.now size terms in
        let plan = split_tw_f I tour.now in
        Counted plan result.served result.runs result.dropped result.cost result.distance }
    ensures served_after { let I = lent_on customers distances.now times.now size terms in
        let plan = split_tw_f I tour.now in
        served.new ≡ written plan.served served.old }
    ensures run_ends_after { let I = lent_on customers distances.now times.now size terms in
        let plan = split_tw_f I tour.now in
        run_ends.new ≡ written plan.ends run_ends.old }
    ensures dropped_after { let I = lent_on customers distances.now times.now size terms in
        let plan = split_tw_f I tour.now in
        dropped.new ≡ written plan.dropped dropped.old }
{
    let mut held = [0usize; MOST_CUT];
    let mut ends = [0usize; CELLS];
    let s = settle(
        tour,
        customers,
        distances,
        times,
        size,
        terms,
        &mut held,
        &mut ends,
        &mut *dropped,
    );
    let n = s.held;
    let at = s.at;
    write_front(&held[..n], &mut *served);
    write_front(&ends[at..], &mut *run_ends);
    let runs = CELLS - at;
    let gone = tour.len() - n;
    SplitResult {
        served: n,
        runs,
        dropped: gone,
        cost: s.cost,
        distance: s.distance,
    }
}

// The cut by capacity, windows, limits and break, placed either way.
pub fn split_tw(
    tour: &[usize],
    customers: [Customer; 64],
    distances: &[f64],
    times: &[f64],
    size: usize,
    capacity: Space,
    fixed: f64,
    limits: RouteLimits,
    placement: Placement,
    served: &mut [usize],
    run_ends: &mut [usize],
    dropped: &mut [usize],
) -> SplitResult
    requires tour_len_bound { (length tour.now ≤ most_cut) × Below64 tour.now }
    requires tour_in_bounds { (length tour.now ≤ length served.old)
        × (length tour.now ≤ length run_ends.old)
        × (length tour.now ≤ length dropped.old) }
    ensures fact { let I = lent customers distances.now times.now size capacity fixed limits placement in
        let plan = split_tw_f I tour.now in
        Counted plan result.served result.runs result.dropped result.cost result.distance }
    ensures served_after { let I = lent customers distances.now times.now size capacity fixed limits placement in
        let plan = split_tw_f I tour.now in
        served.new ≡ written plan.served served.old }
    ensures run_ends_after { let I = lent customers distances.now times.now size capacity fixed limits placement in
        let plan = split_tw_f I tour.now in
        run_ends.new ≡ written plan.ends run_ends.old }
    ensures dropped_after { let I = lent customers distances.now times.now size capacity fixed limits placement in
        let plan = split_tw_f I tour.now in
        dropped.new ≡ written plan.dropped dropped.old }
{
    let terms = Terms {
        capacity,
        fixed,
        limits,
        placement,
        loads_alone: false,
    };
    cut(
        tour,
        customers,
        distances,
        times,
        size,
        terms,
        &mut *served,
        &mut *run_ends,
        &mut *dropped,
    )
}
