// The line of a run that is evaluated.
ghost use Rattle.std.specs.Prelude.{◌≡◌};
ghost use Rattle.test_runs.specs.Along.{follow, follows};
ghost use Rattle.test_runs.specs.Words.{verdict_word, cost_word, evaluation_line};

use crate::recorded::{figure, word};
use whole::infinity;

// Whether the run may be made.
fn verdict(recorded: &[u8], at: usize, feasible: bool) -> usize
    ensures { result ≡ follow recorded.now at (verdict_word feasible) }
{
    if feasible {
        word(recorded, at, b"feasible")
    } else {
        word(recorded, at, b"infeasible")
    }
}

// A cost, or the word for one that is infinite.
fn cost_figure(recorded: &[u8], at: usize, cost: f64) -> usize
    ensures { result ≡ follow recorded.now at (cost_word cost) }
{
    if cost < infinity() {
        figure(recorded, at, cost)
    } else {
        word(recorded, at, b" infinite")
    }
}

// Whether the run may be made, and what it costs.
pub fn evaluation_line(recorded: &[u8], at: usize, feasible: bool, cost: f64) -> usize
    ensures { result ≡ follows recorded.now at (evaluation_line feasible cost) }
{
    let mut end = verdict(recorded, at, feasible);
    end = cost_figure(recorded, end, cost);
    word(recorded, end, b"\n")
}
