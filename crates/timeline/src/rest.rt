// The break of a run at a given place: when it starts there, and whether a run that needs it goes without.
ghost use Rattle.std.specs.Prelude.{◌≡◌, ◌≤◌, length, None};
ghost use Rattle.models.specs.Records.{break_of, rest_of};
ghost use Rattle.distance.specs.Lookup.{drive_f};
ghost use Rattle.evaluation.specs.Records.{lent};
ghost use Rattle.evaluation.specs.Way.{closed_f};
ghost use Rattle.visits.specs.Visiting.{rest_at_of};
ghost use Rattle.timeline.specs.Timing.{started_f, given_start_f, rest_with_f, given_rest_f, untaken_f};

use clock::schedule::{break_start_at, excused};
use models::customer::Customer;
use models::vehicle::VehicleBreak;
use visits::evaluator::walk;
use visits::rest::{RestAt, duration_of};
use visits::visit::Visit;

// The break at a call that is reached at `arrival`: past latest it is not taken.
pub fn started(rest: VehicleBreak, arrival: f64) -> Option<f64>
    ensures { result ≡ started_f (break_of rest) arrival }
{
    let start = break_start_at(rest, arrival);
    if start > rest.latest {
        None
    } else {
        Some(start)
    }
}

// The break at call number `place`, from 1, by the visits of the run without it; 0 is none.
pub fn given_start(rest: Option<VehicleBreak>, place: usize, visits: [Visit; 128]) -> Option<f64>
    requires { place ≤ 128 }
    ensures { result ≡ given_start_f (rest_of rest) place visits }
{
    let b = rest?;
    if place == 0 {
        return None;
    }
    let visit = visits[place - 1];
    started(b, visit.arrival_time)
}

// The break as the visits have it, by its place and start. Whether it is missed is seen after the walk.
pub fn rest_with(rest: Option<VehicleBreak>, place: usize, start: Option<f64>) -> RestAt
    ensures { rest_at_of result ≡ rest_with_f (rest_of rest) place start }
{
    RestAt {
        place,
        start,
        duration: duration_of(rest),
        missing: false,
    }
}

// The break at this place of a run without a closed leg. Up to there the run is as without it, so a walk without the
// break says when its call is reached.
pub fn given_rest(
    route: &[usize],
    customers: [Customer; 64],
    distances: &[f64],
    times: &[f64],
    size: usize,
    rest: Option<VehicleBreak>,
    place: usize,
) -> RestAt
    requires route_len_bound { (length route.now ≤ 128) × (place ≤ length route.now) }
    requires route_value { closed_f (drive_f distances.now times.now size) 1 0 route.now ≡ None }
    ensures { let tables = lent customers distances.now times.now size in
        rest_at_of result ≡ given_rest_f tables (rest_of rest) place route.now }
{
    let without = rest_with(rest, 0, None);
    let calls = walk(route, customers, distances, times, size, without);
    let visits = calls.visits;
    let start = given_start(rest, place, visits);
    rest_with(rest, place, start)
}

// A run that needs its break and does not take it: it would start past latest, or no place is given and the run is home
// too late to be excused.
pub fn untaken(rest: Option<VehicleBreak>, place: usize, start: Option<f64>, duration: f64) -> bool
    ensures { result ≡ untaken_f (rest_of rest) place start duration }
{
    let Some(b) = rest else {
        return false;
    };
    if let Some(_) = start {
        return false;
    }
    if place == 0 {
        return !excused(b, duration);
    }
    true
}
