// The way along a run (ga/split.rs, ga/split_tw.rs), leg by leg: each function looks at the run's last
// call, which is reached next.
ghost use Rattle.std.specs.Prelude.{◌≡◌, ◌<◌, length};
ghost use Rattle.cut_runs.specs.Stretch.{last_of, leg_to, way_to};

// The run's last call.
pub fn last_call(run: &[usize]) -> usize
    requires { 0 < length run.now }
    ensures { result ≡ last_of run.now }
{
    run[run.len() - 1]
}

// The leg to the run's last call, as the lists have it: from the depot where it is the only one, and else
// from the call before it.
pub fn leg_to(run: &[usize], out: f64, leg: f64) -> f64
    ensures { result ≡ leg_to run.now out leg }
{
    if run.len() == 1 { out } else { leg }
}

// The way so far with the leg to the run's last call; the first leg stands alone.
pub fn way_to(run: &[usize], gone: f64, leg: f64) -> f64
    ensures { result ≡ way_to run.now gone leg }
{
    if run.len() == 1 { leg } else { gone + leg }
}
