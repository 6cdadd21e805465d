// Route elimination as a public call: the customers are gathered into an array, on which the call is checked and
// answered.
ghost use Rattle.definitions.specs.Bytes.{numbers_of};
ghost use Rattle.planner.specs.Calls.{lent_sheet};
ghost use Rattle.planner.specs.Eliminating.{elimination_output, EliminationContract};

use call_improvers::eliminating::Elimination;
use lending::{count, gathered};
use models::customer::Customer;
use models::head::Head;

// The runs that are left once each run that can be emptied is: their calls and run ends are written at the front of the
// lent lists. Runs are taken and given in bytes.
pub fn eliminate_routes(
    head: Head,
    customers: &[Customer],
    distances: &[f64],
    times: &[f64],
    calls: &[u8],
    ends: &[u8],
    left_calls: &mut [u8],
    left_ends: &mut [u8],
) -> Elimination
    ensures { let sheet = lent_sheet head customers.now distances.now times.now in
        let old = elimination_output left_calls.old left_ends.old in
        let new = elimination_output left_calls.new left_ends.new in
        EliminationContract sheet (numbers_of calls.now) (numbers_of ends.now) old result new }
{
    let n = count(customers);
    let all = gathered(customers);
    call_improvers::eliminating::eliminate_routes(
        head,
        all,
        n,
        distances,
        times,
        calls,
        ends,
        &mut *left_calls,
        &mut *left_ends,
    )
}
