// Row i of the table of the cut by windows, limits and break (ga/split_tw.rs): the runs that start at
// call i, `held[i..j]` for each j behind it.
ghost use Rattle.std.specs.Prelude.{◌+◌, ◌≤◌, length, None, Some};
ghost use Rattle.models.specs.Records.{break_of};
ghost use Rattle.cut_table.specs.Table.{table};
ghost use Rattle.cut_runs.specs.Runs.{over_by, over, row_lists, RowReady, Rowed};

use cut_row_clock::rest_row::rest_row;
use cut_row_least::least_row::least_row;
use cut_row_loads::load_row::load_row;
use cut_runs::terms::Terms;
use cut_runs::visit::visit;
use cut_runs::way::{last_call, leg_to, way_to};
use cut_stops::stops::stop_at;
use cut_table::cells::{CELLS, offer};
use distance::matrix::road_of;
use models::load::Load;
use models::placement::Placement;
use models::vehicle::VehicleBreak;

// Row i without a break: each run that starts at call i, after the best of the calls before it. Gives
// how many calls the row goes over; no run that goes on from there is legal. A closed leg to a call ends
// the row, since every longer run would drive it. A closed way home is not tested for: cut_stops lists it as
// NaN, and the run that ends with it is offered in vain.
pub fn plain_row(
    cost: &mut [f64; CELLS],
    dist: &mut [f64; CELLS],
    pred: &mut [usize; CELLS],
    held: &[usize],
    legs: &[f64],
    time_legs: &[f64],
    codes: &[u32],
    figures: &[f64],
    terms: Terms,
    i: usize,
) -> usize
    requires { let x = row_lists held.now legs.now time_legs.now codes.now figures.now in
        RowReady x i (table cost.old dist.old pred.old) }
    ensures fact { let x = row_lists held.now legs.now time_legs.now
        codes.now figures.now in
        let old = table cost.old dist.old pred.old in
        let new = table cost.new dist.new pred.new in
        Rowed (λ t. over_by t terms terms.placement None) x i old new result }
    ensures result_in_bounds { i + result ≤ length held.now }
{
    let base = cost[i] + terms.fixed;
    let before = dist[i];
    let mut load = Load::none();
    let mut gone = 0.0;
    let mut time = 0.0;
    let mut late_cost = 0.0;
    let left = held.len() - i;
    for m in 0..left {
        let last = i + m;
        let j = last + 1;
        let run = &held[i..j];
        let stop = stop_at(codes, figures, last_call(run));
        load = load.plus(stop.customer.demand);
        if !load.fits(terms.capacity) {
            return m;
        }
        let Some(leg) = road_of(leg_to(run, stop.out, legs[last])) else {
            return m;
        };
        gone = way_to(run, gone, leg);
        let arrival = way_to(run, time, leg_to(run, stop.time_out, time_legs[last]));
        let Some(v) = visit(stop.customer, arrival, late_cost) else {
            return m;
        };
        time = v.time;
        late_cost = v.late_cost;
        let total = gone + stop.back;
        if !terms.limits.allow(total, time + stop.time_back) {
            continue;
        }
        let new = base + total + late_cost;
        let far = before + total;
        offer(&mut *cost, &mut *dist, &mut *pred, j, i, new, far);
    }
    left
}

// Row i with this break, by the placement.
pub fn broken_row(
    cost: &mut [f64; CELLS],
    dist: &mut [f64; CELLS],
    pred: &mut [usize; CELLS],
    held: &[usize],
    legs: &[f64],
    time_legs: &[f64],
    codes: &[u32],
    figures: &[f64],
    terms: Terms,
    rest: VehicleBreak,
    i: usize,
) -> usize
    requires { let x = row_lists held.now legs.now time_legs.now codes.now figures.now in
        RowReady x i (table cost.old dist.old pred.old) }
    ensures fact { let x = row_lists held.now legs.now time_legs.now
        codes.now figures.now in
        let old = table cost.old dist.old pred.old in
        let new = table cost.new dist.new pred.new in
        Rowed (λ t. over_by t terms terms.placement (Some (break_of rest))) x i old new result }
    ensures result_in_bounds { i + result ≤ length held.now }
{
    let placement = terms.placement;
    match placement {
        Placement::Clock => rest_row(
            &mut *cost, &mut *dist, &mut *pred, held, legs, time_legs, codes, figures, terms, rest,
            i,
        ),
        Placement::Least => least_row(
            &mut *cost, &mut *dist, &mut *pred, held, legs, time_legs, codes, figures, terms, rest,
            i,
        ),
    }
}

// Row i: by loads and closed legs alone, without a break, or with that of the limits.
pub fn row(
    cost: &mut [f64; CELLS],
    dist: &mut [f64; CELLS],
    pred: &mut [usize; CELLS],
    held: &[usize],
    legs: &[f64],
    time_legs: &[f64],
    codes: &[u32],
    figures: &[f64],
    terms: Terms,
    i: usize,
) -> usize
    requires { let x = row_lists held.now legs.now time_legs.now codes.now figures.now in
        RowReady x i (table cost.old dist.old pred.old) }
    ensures fact { let x = row_lists held.now legs.now time_legs.now
        codes.now figures.now in
        let old = table cost.old dist.old pred.old in
        let new = table cost.new dist.new pred.new in
        Rowed (λ t. over t terms) x i old new result }
    ensures result_in_bounds { i + result ≤ length held.now }
{
    if terms.loads_alone {
        return load_row(
            &mut *cost, &mut *dist, &mut *pred, held, legs, time_legs, codes, figures, terms, i,
        );
    }
    let limits = terms.limits;
    let rest = limits.rest;
    match rest {
        None => plain_row(
            &mut *cost, &mut *dist, &mut *pred, held, legs, time_legs, codes, figures, terms, i,
        ),
        Some(b) => broken_row(
            &mut *cost, &mut *dist, &mut *pred, held, legs, time_legs, codes, figures, terms, b, i,
        ),
    }
}
