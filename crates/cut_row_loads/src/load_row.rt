// Row i of the table of the cut by loads and closed legs alone (ga/split.rs): the runs that start at call i,
// `held[i..j]` for each j behind it.
ghost use Rattle.std.specs.Prelude.{◌+◌, ◌≤◌, length};
ghost use Rattle.cut_table.specs.Table.{table};
ghost use Rattle.cut_runs.specs.Runs.{by_loads, row_lists, RowReady, Rowed};

use cut_runs::terms::Terms;
use cut_runs::way::{last_call, leg_to, way_to};
use cut_stops::stops::stop_at;
use cut_table::cells::{CELLS, offer};
use distance::matrix::road_of;
use models::load::Load;

// The same by loads and closed legs alone: no time is kept, and nothing is late.
pub fn load_row(
    cost: &mut [f64; CELLS],
    dist: &mut [f64; CELLS],
    pred: &mut [usize; CELLS],
    held: &[usize],
    legs: &[f64],
    time_legs: &[f64],
    codes: &[u32],
    figures: &[f64],
    terms: Terms,
    i: usize,
) -> usize
    requires { let x = row_lists held.now legs.now time_legs.now codes.now figures.now in
        RowReady x i (table cost.old dist.old pred.old) }
    ensures fact { let x = row_lists held.now legs.now time_legs.now
        codes.now figures.now in
        let old = table cost.old dist.old pred.old in
        let new = table cost.new dist.new pred.new in
        Rowed (λ t. by_loads t terms) x i old new result }
    ensures result_in_bounds { i + result ≤ length held.now }
{
    let base = cost[i] + terms.fixed;
    let before = dist[i];
    let mut load = Load::none();
    let mut gone = 0.0;
    let left = held.len() - i;
    for m in 0..left {
        let last = i + m;
        let j = last + 1;
        let run = &held[i..j];
        let stop = stop_at(codes, figures, last_call(run));
        load = load.plus(stop.customer.demand);
        if !load.fits(terms.capacity) {
            return m;
        }
        let Some(leg) = road_of(leg_to(run, stop.out, legs[last])) else {
            return m;
        };
        gone = way_to(run, gone, leg);
        let total = gone + stop.back;
        // nothing is paid for lateness; it is added, since the other rows add it
        let new = base + total + 0.0;
        let far = before + total;
        offer(&mut *cost, &mut *dist, &mut *pred, j, i, new, far);
    }
    left
}
