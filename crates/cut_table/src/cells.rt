// The table of costs, distances and starts that a cutting fills, and its read-back.
ghost use Rattle.std.specs.Prelude.{◌≡◌, [], ◌<◌, ◌≤◌, length, get_or, drop};
ghost use Rattle.cut_theory.specs.Cut.{back_of, Falls};
ghost use Rattle.cut_theory.specs.Tab.{most_cut, cells};
ghost use Rattle.cut_table.specs.Table.{table, Offered};

// The most calls that are cut: a tour has each of at most 63 customers once.
pub const MOST_CUT: usize = 63;

// The cells of the table: one for each beginning of so many calls, the empty one included.
pub const CELLS: usize = MOST_CUT + 1;

// Puts a cost and a distance at j, with the start i of the last run, where the cost is lower than
// what stands there.
pub fn offer(
    cost: &mut [f64; CELLS],
    dist: &mut [f64; CELLS],
    pred: &mut [usize; CELLS],
    j: usize,
    i: usize,
    new_cost: f64,
    new_dist: f64,
)
    requires { j < cells }
    ensures { let old = table cost.old dist.old pred.old in
        let new = table cost.new dist.new pred.new in
        Offered j i new_cost new_dist old new }
{
    if new_cost < cost[j] {
        cost[j] = new_cost;
        dist[j] = new_dist;
        pred[j] = i;
    }
}

// The ends of the runs, read back from n: they stand at the end of `ends`, from the place that is returned.
pub fn read_back(pred: &[usize; CELLS], n: usize, ends: &mut [usize; CELLS]) -> usize
    requires n_le_most_cut { (n ≤ most_cut) × (length ends.old ≡ cells) }
    requires falls { Falls (λ j. get_or pred.now j 0) n }
    ensures upper_bound { (result ≤ cells) × (length ends.new ≡ cells) }
    ensures ends_after { drop result ends.new ≡ back_of (λ j. get_or pred.now j 0) n n [] }
{
    let mut at: usize = CELLS;
    let mut j = n;
    // A `while`: the table says where each run starts, and so how many turns there are.
    while 0 < j {
        at -= 1;
        ends[at] = j;
        j = pred[j];
    }
    at
}
