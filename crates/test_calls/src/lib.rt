// The public calls on customers that the caller owns as an array: the array is lent as a slice. For test programs.
#![tactic(auto)]

ghost use Rattle.definitions.specs.Bytes.{numbers_of};
ghost use Rattle.placements.specs.Chosen.{placement_of};
ghost use Rattle.planner.specs.Calls.{lent_sheet};
ghost use Rattle.planner.specs.Cutting.{cut_output, SplitTwContract};
ghost use Rattle.planner.specs.Evaluating.{EvalContract};

use call_cuts::cutting::Cut;
use call_runs::evaluating::Evaluation;
use models::customer::Customer;
use models::head::Head;
use models::placement::Placement;
use planner::{cutting, evaluating};

// `planner::cutting::split_tw`.
pub fn split_tw(
    head: Head,
    customers: [Customer; 64],
    distances: &[f64],
    times: &[f64],
    tour: &[usize],
    served: &mut [u8],
    run_ends: &mut [u8],
    dropped: &mut [u8],
    placement: Placement,
) -> Cut
    ensures { let sheet = lent_sheet head customers distances.now times.now in
        let old = cut_output served.old run_ends.old dropped.old in
        let new = cut_output served.new run_ends.new dropped.new in
        SplitTwContract (placement_of placement) sheet tour.now old result new }
{
    cutting::split_tw(
        head, &customers, distances, times, tour, served, run_ends, dropped, placement,
    )
}

// `planner::evaluating::route_eval`.
pub fn route_eval(
    head: Head,
    customers: [Customer; 64],
    distances: &[f64],
    times: &[f64],
    run: &[u8],
    placement: Placement,
) -> Evaluation
    ensures { let sheet = lent_sheet head customers distances.now times.now in
        EvalContract (placement_of placement) sheet (numbers_of run.now) result }
{
    evaluating::route_eval(head, &customers, distances, times, run, placement)
}
