// Row i of the table with a break at its best place: the runs that start at call i, `held[i..j]` for each j
// behind it.
ghost use Rattle.std.specs.Prelude.{◌+◌, ◌≤◌, length, Some};
ghost use Rattle.models.specs.declared.placement.Placement.TheVariants.{Least};
ghost use Rattle.models.specs.Records.{break_of};
ghost use Rattle.cut_table.specs.Table.{table};
ghost use Rattle.cut_runs.specs.Runs.{over_by, row_lists, RowReady, Rowed};

use clock::schedule::{Label, carry};
use cut_labels::labels::{best_home, call_served, some_left};
use cut_runs::terms::Terms;
use cut_runs::way::{last_call, leg_to, way_to};
use cut_stops::stops::stop_at;
use cut_table::cells::{CELLS, offer};
use distance::matrix::road_of;
use models::load::Load;
use models::vehicle::VehicleBreak;

// Row i with a break at its best place: the labels of all places are handed each run in turn.
pub fn least_row(
    cost: &mut [f64; CELLS],
    dist: &mut [f64; CELLS],
    pred: &mut [usize; CELLS],
    held: &[usize],
    legs: &[f64],
    time_legs: &[f64],
    codes: &[u32],
    figures: &[f64],
    terms: Terms,
    rest: VehicleBreak,
    i: usize,
) -> usize
    requires { let x = row_lists held.now legs.now time_legs.now codes.now figures.now in
        RowReady x i (table cost.old dist.old pred.old) }
    ensures fact { let x = row_lists held.now legs.now time_legs.now
        codes.now figures.now in
        let old = table cost.old dist.old pred.old in
        let new = table cost.new dist.new pred.new in
        Rowed (λ t. over_by t terms Least (Some (break_of rest))) x i old new result }
    ensures result_in_bounds { i + result ≤ length held.now }
{
    let base = cost[i] + terms.fixed;
    let ahead = dist[i];
    let mut times = [0.0; CELLS];
    let mut lates = [0.0; CELLS];
    let mut pays = [0.0; CELLS];
    let mut places = [0usize; CELLS];
    let mut n = 0;
    let mut before = Some(Label::start());
    let mut load = Load::none();
    let mut gone = 0.0;
    let left = held.len() - i;
    for m in 0..left {
        let last = i + m;
        let j = last + 1;
        let run = &held[i..j];
        let stop = stop_at(codes, figures, last_call(run));
        load = load.plus(stop.customer.demand);
        if !load.fits(terms.capacity) {
            return m;
        }
        let Some(leg) = road_of(leg_to(run, stop.out, legs[last])) else {
            return m;
        };
        gone = way_to(run, gone, leg);
        let travel = leg_to(run, stop.time_out, time_legs[last]);
        let number = m + 1;
        n = call_served(
            &mut times,
            &mut lates,
            &mut pays,
            &mut places,
            n,
            before,
            travel,
            stop.customer,
            number,
            rest,
        );
        before = carry(before, travel, stop.customer, number, None);
        if !some_left(before, n) {
            return m;
        }
        let total = gone + stop.back;
        let Some(done) = best_home(
            &times,
            &lates,
            &pays,
            &places,
            n,
            before,
            rest,
            terms.limits,
            total,
            stop.time_back,
        ) else {
            continue;
        };
        let new = base + total + done.cost;
        let far = ahead + total;
        offer(&mut *cost, &mut *dist, &mut *pred, j, i, new, far);
    }
    left
}
