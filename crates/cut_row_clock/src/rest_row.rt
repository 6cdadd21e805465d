// Row i of the table with a break where the clock puts it (ga/split_tw.rs): the runs that start at call i,
// `held[i..j]` for each j behind it.
ghost use Rattle.std.specs.Prelude.{◌≡◌, ◌+◌, ◌<◌, ◌≤◌, length, Some};
ghost use Rattle.models.specs.declared.placement.Placement.TheVariants.{Clock};
ghost use Rattle.models.specs.Records.{customer_of, break_of};
ghost use Rattle.clock.specs.Records.{clock_of};
ghost use Rattle.clock.specs.Clock.{push_f};
ghost use Rattle.cut_table.specs.Table.{table};
ghost use Rattle.cut_runs.specs.Stretch.{last_of};
ghost use Rattle.cut_runs.specs.Runs.{over_by, row_lists, RowReady, Rowed};

use clock::schedule::BreakClock;
use cut_runs::terms::Terms;
use cut_runs::way::{last_call, leg_to, way_to};
use cut_stops::stops::stop_at;
use cut_table::cells::{CELLS, offer};
use distance::matrix::road_of;
use models::customer::Customer;
use models::load::Load;
use models::vehicle::VehicleBreak;

// The clock of a run, from that of the run without its last call: it serves that call, as `push` does.
// The row alone calls this, so it is compiled into the row's loop and the labels stay in registers;
// `push`, which has more callers, is too large for that.
fn pushed(clock: BreakClock, run: &[usize], customer: Customer, travel: f64) -> BreakClock
    requires { (0 < length run.now) × (clock.index < 0xFFFF_FFFF_FFFF_FFFF) }
    ensures { clock_of result ≡ push_f (clock_of clock) (last_of run.now) (customer_of customer) travel }
{
    let rest = clock.rest;
    BreakClock {
        rest,
        before: clock.skipped(customer, travel),
        after: clock.taken(customer, travel),
        prev: last_call(run),
        index: clock.index + 1,
    }
}

// Row i with a break where the clock puts it: the clock is handed each run, which is a call longer than the
// one before it.
pub fn rest_row(
    cost: &mut [f64; CELLS],
    dist: &mut [f64; CELLS],
    pred: &mut [usize; CELLS],
    held: &[usize],
    legs: &[f64],
    time_legs: &[f64],
    codes: &[u32],
    figures: &[f64],
    terms: Terms,
    rest: VehicleBreak,
    i: usize,
) -> usize
    requires { let x = row_lists held.now legs.now time_legs.now codes.now figures.now in
        RowReady x i (table cost.old dist.old pred.old) }
    ensures fact { let x = row_lists held.now legs.now time_legs.now
        codes.now figures.now in
        let old = table cost.old dist.old pred.old in
        let new = table cost.new dist.new pred.new in
        Rowed (λ t. over_by t terms Clock (Some (break_of rest))) x i old new result }
    ensures result_in_bounds { i + result ≤ length held.now }
{
    let base = cost[i] + terms.fixed;
    let before = dist[i];
    let mut load = Load::none();
    let mut gone = 0.0;
    let mut clock = BreakClock::new(rest);
    let left = held.len() - i;
    for m in 0..left {
        let last = i + m;
        let j = last + 1;
        let run = &held[i..j];
        let stop = stop_at(codes, figures, last_call(run));
        load = load.plus(stop.customer.demand);
        if !load.fits(terms.capacity) {
            return m;
        }
        let Some(leg) = road_of(leg_to(run, stop.out, legs[last])) else {
            return m;
        };
        gone = way_to(run, gone, leg);
        let travel = leg_to(run, stop.time_out, time_legs[last]);
        clock = pushed(clock, run, stop.customer, travel);
        if !clock.alive() {
            return m;
        }
        let total = gone + stop.back;
        let Some(done) = clock.finish(total, stop.time_back) else {
            continue;
        };
        if !terms.limits.allow(total, done.duration) {
            continue;
        }
        let new = base + total + done.cost;
        let far = before + total;
        offer(&mut *cost, &mut *dist, &mut *pred, j, i, new, far);
    }
    left
}
