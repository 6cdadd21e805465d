// Where the visits of a run have its break: placed where the run finishes earliest, and left out where it has no place.
ghost use Rattle.std.specs.Prelude.{◌≡◌};
ghost use Rattle.models.specs.Records.{rest_of};
ghost use Rattle.evaluation.specs.Records.{lent};
ghost use Rattle.visits.specs.Visiting.{rest_at_of, placed_f, place_of, duration_f, missing_f, rest_at_f, ready_at_f};

use clock::schedule::Scheduled;
use evaluation::route::start_of;
use evaluation::schedule::schedule;
use models::customer::Customer;
use models::vehicle::VehicleBreak;

// The break as the visits have it: the number of the call that it comes before, from 1, or 0; its start and its length;
// and whether it has no place though there is one.
#[derive(Clone, Copy)]
pub struct RestAt {
    pub place: usize,
    pub start: Option<f64>,
    pub duration: f64,
    pub missing: bool,
}

// The break, placed where the run finishes earliest.
pub fn placed(
    route: &[usize],
    customers: [Customer; 64],
    distances: &[f64],
    times: &[f64],
    size: usize,
    rest: Option<VehicleBreak>,
) -> Option<Scheduled>
    ensures { let tables = lent customers distances.now times.now size in
        result ≡ placed_f tables (rest_of rest) route.now }
{
    match rest {
        None => None,
        Some(b) => schedule(route, customers, distances, times, size, b),
    }
}

pub fn place_of(placed: Option<Scheduled>) -> usize
    ensures { result ≡ place_of placed }
{
    match placed {
        None => 0,
        Some(s) => s.place,
    }
}

pub fn duration_of(rest: Option<VehicleBreak>) -> f64
    ensures { result ≡ duration_f (rest_of rest) }
{
    match rest {
        None => 0.0,
        Some(b) => b.duration,
    }
}

// There is a break, and it has no place.
pub fn is_missing(rest: Option<VehicleBreak>, placed: Option<Scheduled>) -> bool
    ensures { result ≡ missing_f (rest_of rest) placed }
{
    let Some(_) = rest else {
        return false;
    };
    match placed {
        None => true,
        Some(_) => false,
    }
}

pub fn rest_at(
    route: &[usize],
    customers: [Customer; 64],
    distances: &[f64],
    times: &[f64],
    size: usize,
    rest: Option<VehicleBreak>,
) -> RestAt
    ensures { let tables = lent customers distances.now times.now size in
        rest_at_of result ≡ rest_at_f tables (rest_of rest) route.now }
{
    let found = placed(route, customers, distances, times, size, rest);
    let place = place_of(found);
    let start = start_of(route, customers, distances, times, size, rest, place);
    RestAt {
        place,
        start,
        duration: duration_of(rest),
        missing: is_missing(rest, found),
    }
}

impl RestAt {
    // At the call that the break comes before, the service can start only after it.
    pub fn ready_at(self, index: usize, arrival: f64) -> f64
        ensures { result ≡ ready_at_f (rest_at_of self) index arrival }
    {
        let start = self.start;
        let Some(from) = start else {
            return arrival;
        };
        if self.place == index {
            from + self.duration
        } else {
            arrival
        }
    }
}
