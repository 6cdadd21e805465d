// The cutting of a tour as a public call: the customers are gathered into an array, on which the call is checked and
// answered.
ghost use Rattle.placements.specs.Chosen.{placement_of};
ghost use Rattle.planner.specs.Calls.{lent_sheet};
ghost use Rattle.planner.specs.Cutting.{cut_output, SplitContract, SplitTwContract};

use call_cuts::cutting::Cut;
use lending::{count, gathered};
use models::customer::Customer;
use models::head::Head;
use models::placement::Placement;

// A tour cut at least cost by loads and closed legs alone: the served customers, the run ends and the dropped
// positions are written at the front of the lent lists, a byte each.
pub fn split(
    head: Head,
    customers: &[Customer],
    distances: &[f64],
    times: &[f64],
    tour: &[usize],
    served: &mut [u8],
    run_ends: &mut [u8],
    dropped: &mut [u8],
) -> Cut
    ensures { let sheet = lent_sheet head customers.now distances.now times.now in
        let old = cut_output served.old run_ends.old dropped.old in
        let new = cut_output served.new run_ends.new dropped.new in
        SplitContract sheet tour.now old result new }
{
    let n = count(customers);
    let all = gathered(customers);
    call_cuts::cutting::split(
        head,
        all,
        n,
        distances,
        times,
        tour,
        &mut *served,
        &mut *run_ends,
        &mut *dropped,
    )
}

// A tour cut at least cost by all that a run is held to, with its breaks where the placement puts them: the served
// customers, the run ends and the dropped positions are written at the front of the lent lists, a byte each.
pub fn split_tw(
    head: Head,
    customers: &[Customer],
    distances: &[f64],
    times: &[f64],
    tour: &[usize],
    served: &mut [u8],
    run_ends: &mut [u8],
    dropped: &mut [u8],
    placement: Placement,
) -> Cut
    ensures { let sheet = lent_sheet head customers.now distances.now times.now in
        let old = cut_output served.old run_ends.old dropped.old in
        let new = cut_output served.new run_ends.new dropped.new in
        SplitTwContract (placement_of placement) sheet tour.now old result new }
{
    let n = count(customers);
    let all = gathered(customers);
    call_cuts::cutting::split_tw(
        head,
        all,
        n,
        distances,
        times,
        tour,
        &mut *served,
        &mut *run_ends,
        &mut *dropped,
        placement,
    )
}
