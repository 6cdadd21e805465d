// The timeline of a run whose break is at a given place: its visits with when each service starts, its totals, and what
// it violates.
ghost use Rattle.std.specs.Prelude.{◌≡◌, ◌≤◌, length, None};
ghost use Rattle.distance.specs.Lookup.{drive_f};
ghost use Rattle.models.specs.Load.{space_of};
ghost use Rattle.evaluation.specs.Records.{lent, limits_of};
ghost use Rattle.evaluation.specs.Way.{closed_f};
ghost use Rattle.timeline.specs.Timing.{Times};

use crate::begins::begins_of;
use crate::rest::{given_rest, untaken};
use evaluation::way::first_closed;
use models::customer::Customer;
use models::limits::RouteLimits;
use models::load::Space;
use visits::evaluator::{Built, closed_route, walk};
use visits::trip::open_leg;

// The run with its visits, totals and violations, and for each visit, in the same order, when its service starts.
#[derive(Clone, Copy)]
pub struct Timeline {
    pub run: Built,
    pub begins: [f64; 128],
}

// Of a run without a closed leg.
fn open_timeline(
    route: &[usize],
    customers: [Customer; 64],
    distances: &[f64],
    times: &[f64],
    size: usize,
    capacity: Space,
    limits: RouteLimits,
    place: usize,
) -> Timeline
    requires route_len_bound { (length route.now ≤ 128) × (place ≤ length route.now) }
    requires route_value { closed_f (drive_f distances.now times.now size) 1 0 route.now ≡ None }
    ensures { let tables = lent customers distances.now times.now size in
        Times tables (space_of capacity) (limits_of limits) place route.now result }
{
    let rest = limits.rest;
    let at = given_rest(route, customers, distances, times, size, rest, place);
    let calls = walk(route, customers, distances, times, size, at);
    let trip = calls.trip;
    let label = trip.label;
    let prev = trip.prev;
    let back = open_leg(distances, times, size, prev, 0);
    let distance = trip.distance + back.distance;
    let duration = label.time + back.time;
    let start = at.start;
    let missing = untaken(rest, place, start, duration);
    let windows = calls.windows;
    let load = trip.load;
    let found = windows.checked(missing, load, capacity, limits, distance, duration);
    let visits = calls.visits;
    let violations = found.list;
    let count = route.len();
    let begins = begins_of(visits, count, customers, at);
    Timeline {
        run: Built {
            visits,
            count,
            violations,
            found: found.count,
            distance,
            duration,
            lateness: label.lateness,
            lateness_cost: label.cost,
            load,
            place,
            start,
        },
        begins,
    }
}

// Whether a leg is closed is asked first: of such a run nothing but that is told.
pub fn timeline_of(
    route: &[usize],
    customers: [Customer; 64],
    distances: &[f64],
    times: &[f64],
    size: usize,
    capacity: Space,
    limits: RouteLimits,
    place: usize,
) -> Timeline
    requires { (length route.now ≤ 128) × (place ≤ length route.now) }
    ensures { let tables = lent customers distances.now times.now size in
        Times tables (space_of capacity) (limits_of limits) place route.now result }
{
    let leg = first_closed(route, distances, times, size);
    if leg > 0 {
        return Timeline {
            run: closed_route(leg),
            begins: [0.0; 128],
        };
    }
    open_timeline(
        route, customers, distances, times, size, capacity, limits, place,
    )
}
