// The drops of the cut by windows, limits and break (ga/split_tw.rs): a beginning of the calls held that
// has no cutting loses its last call.
ghost use Rattle.std.specs.Prelude.{◌≤◌, take};
ghost use Rattle.cut_stops.specs.Stops.{leg_lists, LegsWritten};
ghost use Rattle.cut_table.specs.Table.{table, calls};
ghost use Rattle.cut_runs.specs.Runs.{over, row_lists};
ghost use Rattle.cut_drops.specs.Refill.{rows, NoteReady, LegsTo, Refilled, given, legs_given, SomeLists, work, TurnReady, RowOrDrop, Unfilled, Front, StuckReady, Holds};

use crate::refill::{noted_row, refill};
use cut_runs::terms::Terms;
use cut_stops::stops::write_legs;
use cut_table::cells::{CELLS, MOST_CUT};
use cut_table::held::{drop_call, number};
use whole::infinity;

// After the call at q was dropped: the legs from there on are worked out, and the rows below q filled
// again.
pub fn close_gap(
    cost: &mut [f64; CELLS],
    dist: &mut [f64; CELLS],
    pred: &mut [usize; CELLS],
    reach: &mut [usize; CELLS],
    held: &[usize],
    legs: &mut [f64; MOST_CUT],
    time_legs: &mut [f64; MOST_CUT],
    distances: &[f64],
    times: &[f64],
    size: usize,
    codes: &[u32],
    figures: &[f64],
    terms: Terms,
    q: usize,
)
    requires fact { let x = row_lists held.now legs.old time_legs.old codes.now figures.now in
        NoteReady x q (rows cost.old dist.old pred.old reach.old) }
    requires fact_2 { let E = given distances.now times.now size codes.now figures.now terms in
        SomeLists E held.now × LegsTo (legs_given E) held.now q (leg_lists legs.old time_legs.old) }
    ensures fact_3 { let E = given distances.now times.now size
        codes.now figures.now terms in
        let old = leg_lists legs.old time_legs.old in
        let new = leg_lists legs.new time_legs.new in
        LegsWritten (legs_given E) held.now q old new }
    ensures fact_4 { let x = row_lists held.now legs.new time_legs.new
        codes.now figures.now in
        let old = rows cost.old dist.old pred.old reach.old in
        let new = rows cost.new dist.new pred.new reach.new in
        Refilled (λ t. over t terms) x q old new }
{
    write_legs(distances, times, size, held, q, &mut *legs, &mut *time_legs);
    refill(
        &mut *cost,
        &mut *dist,
        &mut *pred,
        &mut *reach,
        held,
        &*legs,
        &*time_legs,
        codes,
        figures,
        terms,
        q,
    );
}

// One turn at row i of the n calls held: the row is filled. Where the first i + 1 calls then have a
// cutting, that is all, and it gives true. Where they have none, the last of them is dropped, and false
// is given: its position is written after the `gone` that were dropped before, the calls behind it move
// up, the legs from there on are worked out, and the rows below i are filled again.
pub fn row_or_drop(
    held: &mut [usize],
    positions: &mut [usize],
    n: usize,
    i: usize,
    dropped: &mut [usize],
    gone: usize,
    legs: &mut [f64; MOST_CUT],
    time_legs: &mut [f64; MOST_CUT],
    distances: &[f64],
    times: &[f64],
    size: usize,
    codes: &[u32],
    figures: &[f64],
    terms: Terms,
    cost: &mut [f64; CELLS],
    dist: &mut [f64; CELLS],
    pred: &mut [usize; CELLS],
    reach: &mut [usize; CELLS],
) -> bool
    requires { let E = given distances.now times.now size codes.now figures.now terms in
        let x = work (calls held.old positions.old dropped.old) (leg_lists legs.old time_legs.old)
        (rows cost.old dist.old pred.old reach.old) in
        TurnReady E n i gone x }
    ensures { let E = given distances.now times.now size
        codes.now figures.now terms in
        let old = work (calls held.old positions.old dropped.old)
        (leg_lists legs.old time_legs.old)
        (rows cost.old dist.old pred.old reach.old) in
        let new = work (calls held.new positions.new dropped.new)
        (leg_lists legs.new time_legs.new)
        (rows cost.new dist.new pred.new reach.new) in
        RowOrDrop E n i gone result old new }
{
    let top = infinity();
    noted_row(
        &mut *cost,
        &mut *dist,
        &mut *pred,
        &mut *reach,
        &held[..n],
        &*legs,
        &*time_legs,
        codes,
        figures,
        terms,
        i,
    );
    if cost[i + 1] < top {
        return true;
    }
    drop_call(&mut *held, &mut *positions, n, i, &mut *dropped, gone);
    let left = n - 1;
    close_gap(
        &mut *cost,
        &mut *dist,
        &mut *pred,
        &mut *reach,
        &held[..left],
        &mut *legs,
        &mut *time_legs,
        distances,
        times,
        size,
        codes,
        figures,
        terms,
        i,
    );
    false
}

// Fills the table of the n calls at the front of `held`, row by row. A beginning whose cell stays empty
// has no cutting: its last call is dropped, and the rows go on from there, since nothing before the
// dropped call changes. Gives how many stay; they stand at the front.
pub fn drop_stuck(
    held: &mut [usize],
    positions: &mut [usize],
    n: usize,
    dropped: &mut [usize],
    legs: &mut [f64; MOST_CUT],
    time_legs: &mut [f64; MOST_CUT],
    distances: &[f64],
    times: &[f64],
    size: usize,
    codes: &[u32],
    figures: &[f64],
    terms: Terms,
    cost: &mut [f64; CELLS],
    dist: &mut [f64; CELLS],
    pred: &mut [usize; CELLS],
    reach: &mut [usize; CELLS],
) -> usize
    requires { let E = given distances.now times.now size codes.now figures.now terms in
        let x = work (calls held.old positions.old dropped.old) (leg_lists legs.old time_legs.old)
        (rows cost.old dist.old pred.old reach.old) in
        StuckReady E n x }
    ensures fact { let E = given distances.now times.now size
        codes.now figures.now terms in
        let t = table cost.new dist.new pred.new in
        Holds E (take n held.old) dropped.old result held.new dropped.new t }
    ensures upper_bound { result ≤ n }
{
    let mut left = n;
    let mut i: usize = 0;
    // A `while`: a turn goes one row on, or leaves one call fewer.
    while i < left {
        if row_or_drop(
            &mut *held,
            &mut *positions,
            left,
            i,
            &mut *dropped,
            n - left,
            &mut *legs,
            &mut *time_legs,
            distances,
            times,
            size,
            codes,
            figures,
            terms,
            &mut *cost,
            &mut *dist,
            &mut *pred,
            &mut *reach,
        ) {
            i += 1;
        } else {
            left -= 1;
        }
    }
    left
}

// Of the n calls at the front of `held` those that stay, with the table of their rows. Gives how many;
// they stand at the front.
pub fn hold(
    held: &mut [usize],
    n: usize,
    dropped: &mut [usize],
    distances: &[f64],
    times: &[f64],
    size: usize,
    codes: &[u32],
    figures: &[f64],
    terms: Terms,
    cost: &mut [f64; CELLS],
    dist: &mut [f64; CELLS],
    pred: &mut [usize; CELLS],
) -> usize
    requires front { Front n held.old dropped.old }
    requires unfilled { Unfilled (table cost.old dist.old pred.old) }
    requires fact { let E = given distances.now times.now size codes.now figures.now terms in
        SomeLists E (take n held.old) }
    ensures fact_2 { let E = given distances.now times.now size
        codes.now figures.now terms in
        let t = table cost.new dist.new pred.new in
        Holds E (take n held.old) dropped.old result held.new dropped.new t }
    ensures upper_bound { result ≤ n }
{
    let mut positions = [0usize; MOST_CUT];
    number(&mut positions, 1, n);
    let mut legs = [0.0; MOST_CUT];
    let mut time_legs = [0.0; MOST_CUT];
    write_legs(
        distances,
        times,
        size,
        &held[..n],
        0,
        &mut legs,
        &mut time_legs,
    );
    let mut reach = [0usize; CELLS];
    drop_stuck(
        &mut *held,
        &mut positions,
        n,
        &mut *dropped,
        &mut legs,
        &mut time_legs,
        distances,
        times,
        size,
        codes,
        figures,
        terms,
        &mut *cost,
        &mut *dist,
        &mut *pred,
        &mut reach,
    )
}
