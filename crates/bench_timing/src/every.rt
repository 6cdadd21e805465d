// A tour cut into runs of so many calls, whatever they are.
ghost use Rattle.std.specs.Prelude.{◌≡◌, ◌≤◌, length};
ghost use Rattle.definitions.specs.Room.{written};
ghost use Rattle.bench_timing.specs.Every.{step_of, next_end, every_ends};

// A run has a call at least.
fn step_of(run: usize) -> usize
    ensures { result ≡ step_of run }
{
    if run == 0 { 1 } else { run }
}

// The end of the run that begins after `from` of n calls; the last may be shorter.
fn next_end(from: usize, run: usize, n: usize) -> usize
    requires { from ≤ n }
    ensures { result ≡ next_end run n from }
{
    let step = step_of(run);
    if n - from <= step { n } else { from + step }
}

// The run ends of n calls, at the front of the list; the answer is how many there are.
pub fn write_every(n: usize, run: usize, ends: &mut [usize]) -> usize
    requires { n ≤ length ends.old }
    ensures ends { ends.new ≡ written (every_ends run n) ends.old }
    ensures count { result ≡ length (every_ends run n) }
{
    let mut end = 0;
    let mut k = 0;
    // A `while`: each end follows from the one before. A range would need their number, and `step_by` visits all calls.
    while end < n {
        end = next_end(end, run, n);
        ends[k] = end;
        k += 1;
    }
    k
}
