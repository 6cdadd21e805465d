// The reversal of stretches as a public call: the customers are gathered into an array, on which the call is checked
// and answered.
ghost use Rattle.definitions.specs.Bytes.{numbers_of};
ghost use Rattle.planner.specs.Calls.{lent_sheet};
ghost use Rattle.planner.specs.Reversing.{ReversalContract};

use call_improvers::reversing::Reversed;
use lending::{count, gathered};
use models::customer::Customer;
use models::head::Head;

// A run with stretches of its calls reversed while that lowers its distance and keeps it allowed: its calls are written
// at the front of the lent list. The run is taken and given in bytes.
pub fn two_opt_improve(
    head: Head,
    customers: &[Customer],
    distances: &[f64],
    times: &[f64],
    run: &[u8],
    improved: &mut [u8],
) -> Reversed
    ensures { let sheet = lent_sheet head customers.now distances.now times.now in
        let old = numbers_of improved.old in
        let new = numbers_of improved.new in
        ReversalContract sheet (numbers_of run.now) old result new }
{
    let n = count(customers);
    let all = gathered(customers);
    call_improvers::reversing::two_opt_improve(head, all, n, distances, times, run, &mut *improved)
}
