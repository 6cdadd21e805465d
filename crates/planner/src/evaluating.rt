// The evaluations of a run as public calls: the customers are gathered into an array, on which the call is checked and
// answered. The run is lent in bytes.
ghost use Rattle.definitions.specs.Bytes.{numbers_of};
ghost use Rattle.placements.specs.Chosen.{placement_of};
ghost use Rattle.planner.specs.Calls.{lent_sheet};
ghost use Rattle.planner.specs.Evaluating.{FeasibleContract, CostContract, EvalContract};

use call_runs::evaluating::{Cost, Evaluation, Feasible};
use lending::{count, gathered};
use models::customer::Customer;
use models::head::Head;
use models::placement::Placement;

// Whether a run serves each call in time, or late at a penalty, places its break and keeps the limits.
pub fn route_feasible(
    head: Head,
    customers: &[Customer],
    distances: &[f64],
    times: &[f64],
    run: &[u8],
) -> Feasible
    ensures { let sheet = lent_sheet head customers.now distances.now times.now in
        FeasibleContract sheet (numbers_of run.now) result }
{
    let n = count(customers);
    let all = gathered(customers);
    call_runs::evaluating::route_feasible(head, all, n, distances, times, run)
}

// The distance and the lateness cost.
pub fn effective_cost(
    head: Head,
    customers: &[Customer],
    distances: &[f64],
    times: &[f64],
    run: &[u8],
) -> Cost
    ensures { let sheet = lent_sheet head customers.now distances.now times.now in
        CostContract sheet (numbers_of run.now) result }
{
    let n = count(customers);
    let all = gathered(customers);
    call_runs::evaluating::effective_cost(head, all, n, distances, times, run)
}

// What a run comes to, with its break where the placement puts it, if it is allowed.
pub fn route_eval(
    head: Head,
    customers: &[Customer],
    distances: &[f64],
    times: &[f64],
    run: &[u8],
    placement: Placement,
) -> Evaluation
    ensures { let sheet = lent_sheet head customers.now distances.now times.now in
        EvalContract (placement_of placement) sheet (numbers_of run.now) result }
{
    let n = count(customers);
    let all = gathered(customers);
    call_runs::evaluating::route_eval(head, all, n, distances, times, run, placement)
}
