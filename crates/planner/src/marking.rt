// The marker as a public call: the customers are gathered into an array, on which the call is checked and answered.
ghost use Rattle.definitions.specs.Bytes.{numbers_of};
ghost use Rattle.placements.specs.Chosen.{placement_of};
ghost use Rattle.planner.specs.Calls.{lent_sheet};
ghost use Rattle.planner.specs.Marking.{MarkContract};

use call_cuts::marking::Marking;
use lending::{count, gathered};
use models::customer::Customer;
use models::head::Head;
use models::placement::Placement;

// A cutting with break places, marked against the planner's of the tour by the placement; `calls` and `ends` are its
// runs, and `breaks` has a break place for each, all in bytes.
pub fn mark(
    head: Head,
    customers: &[Customer],
    distances: &[f64],
    times: &[f64],
    tour: &[usize],
    calls: &[u8],
    ends: &[u8],
    breaks: &[u8],
    placement: Placement,
) -> Marking
    ensures { let sheet = lent_sheet head customers.now distances.now times.now in
        MarkContract (placement_of placement) sheet tour.now (numbers_of calls.now)
        (numbers_of ends.now) (numbers_of breaks.now) result }
{
    let n = count(customers);
    let all = gathered(customers);
    call_cuts::marking::mark(
        head, all, n, distances, times, tour, calls, ends, breaks, placement,
    )
}
