// The rows of the calls held, each noted where it ended, and filled again after a call was dropped.
ghost use Rattle.cut_table.specs.Table.{table, Sized};
ghost use Rattle.cut_runs.specs.Runs.{over, row_lists};
ghost use Rattle.cut_drops.specs.Refill.{rows, NoteReady, TableCleared, Listed, Noted, Refilled};

use cut_rows::rows::row;
use cut_runs::terms::Terms;
use cut_table::cells::CELLS;
use whole::infinity;

// Row i of the calls held, and in `reach` how far it went: the place of the call that ended it, or the
// number of calls.
pub fn noted_row(
    cost: &mut [f64; CELLS],
    dist: &mut [f64; CELLS],
    pred: &mut [usize; CELLS],
    reach: &mut [usize; CELLS],
    held: &[usize],
    legs: &[f64],
    time_legs: &[f64],
    codes: &[u32],
    figures: &[f64],
    terms: Terms,
    i: usize,
)
    requires { let x = row_lists held.now legs.now time_legs.now codes.now figures.now in
        NoteReady x i (rows cost.old dist.old pred.old reach.old) }
    ensures { let x = row_lists held.now legs.now time_legs.now
        codes.now figures.now in
        let old = rows cost.old dist.old pred.old reach.old in
        let new = rows cost.new dist.new pred.new reach.new in
        Noted (λ t. over t terms) x i old new }
{
    let m = row(
        &mut *cost, &mut *dist, &mut *pred, held, legs, time_legs, codes, figures, terms, i,
    );
    reach[i] = i + m;
}

// Clears the cells from `from` on.
pub fn clear(
    cost: &mut [f64; CELLS],
    dist: &mut [f64; CELLS],
    pred: &mut [usize; CELLS],
    from: usize,
)
    requires { Sized (table cost.old dist.old pred.old) }
    ensures { let old = table cost.old dist.old pred.old in
        let new = table cost.new dist.new pred.new in
        TableCleared from old new }
{
    let top = infinity();
    for k in from..CELLS {
        cost[k] = top;
        dist[k] = 0.0;
        pred[k] = 0;
    }
}

// The table of the rows below q, after the call at q was dropped: the cells up to q stay, and of the
// rows only those that had gone as far as that call are filled again.
pub fn refill(
    cost: &mut [f64; CELLS],
    dist: &mut [f64; CELLS],
    pred: &mut [usize; CELLS],
    reach: &mut [usize; CELLS],
    held: &[usize],
    legs: &[f64],
    time_legs: &[f64],
    codes: &[u32],
    figures: &[f64],
    terms: Terms,
    q: usize,
)
    requires fact { let x = row_lists held.now legs.now time_legs.now codes.now figures.now in
        NoteReady x q (rows cost.old dist.old pred.old reach.old) }
    requires listed { Listed (row_lists held.now legs.now time_legs.now codes.now figures.now) }
    ensures { let x = row_lists held.now legs.now time_legs.now
        codes.now figures.now in
        let old = rows cost.old dist.old pred.old reach.old in
        let new = rows cost.new dist.new pred.new reach.new in
        Refilled (λ t. over t terms) x q old new }
{
    clear(&mut *cost, &mut *dist, &mut *pred, q + 1);
    for s in 0..q {
        if reach[s] < q {
            continue;
        }
        noted_row(
            &mut *cost,
            &mut *dist,
            &mut *pred,
            &mut *reach,
            held,
            legs,
            time_legs,
            codes,
            figures,
            terms,
            s,
        );
    }
}
