// The visits of a run with their times and loads, its totals, and what it violates (evaluation/evaluator.rs).
ghost use Rattle.std.specs.Prelude.{◌≡◌, cond, ◌+◌, ◌≤◌, length, replicate, None};
ghost use Rattle.distance.specs.Lookup.{drive_f};
ghost use Rattle.models.specs.Load.{space_of};
ghost use Rattle.evaluation.specs.Records.{lent, limits_of};
ghost use Rattle.evaluation.specs.Way.{closed_f};
ghost use Rattle.visits.specs.Visiting.{rest_at_of, Walks, most_violations, blank_visit, blank_violation};
ghost use Rattle.visits.specs.Building.{closed_route_f, built_of, Builds};

use crate::rest::{RestAt, rest_at};
use crate::trip::{Trip, open_leg};
use crate::violation::Violations;
use crate::visit::{MOST_VIOLATIONS, Violation, ViolationType, Visit};
use evaluation::schedule::record_index;
use evaluation::way::first_closed;
use models::customer::Customer;
use models::limits::RouteLimits;
use models::load::{Load, Space};

// All calls visited: the visits stand first in their array.
#[derive(Clone, Copy)]
pub struct VisitedRun {
    pub visits: [Visit; 128],
    pub windows: Violations,
    pub trip: Trip,
}

// A run with its visits and violations, which stand first in their arrays. The place is the break's, from 1, or 0.
#[derive(Clone, Copy)]
pub struct Built {
    pub visits: [Visit; 128],
    pub count: usize,
    pub violations: [Violation; MOST_VIOLATIONS],
    pub found: usize,
    pub distance: f64,
    pub duration: f64,
    pub lateness: f64,
    pub lateness_cost: f64,
    pub load: Load,
    pub place: usize,
    pub start: Option<f64>,
}

// What stands in the arrays where nothing is written.
pub fn blank_visits() -> [Visit; 128]
    ensures { result ≡ replicate 128 blank_visit }
{
    let visit = Visit {
        customer_id: 0,
        arrival_time: 0.0,
        departure_time: 0.0,
        load_after: Load::none(),
    };
    [visit; 128]
}

pub fn blank_violations() -> [Violation; MOST_VIOLATIONS]
    ensures { result ≡ replicate most_violations blank_violation }
{
    let violation = Violation {
        kind: ViolationType::BreakNotPlaceable,
    };
    [violation; MOST_VIOLATIONS]
}

// One more, where the test holds.
pub fn counted(count: usize, test: bool) -> usize
    requires { count ≤ 128 }
    ensures { result ≡ count + cond test 1 0 }
{
    if test { count + 1 } else { count }
}

// Every call of a run without a closed leg visited in turn. The violation of its window is written at each, and counted
// where the window is shut.
pub fn walk(
    route: &[usize],
    customers: [Customer; 64],
    distances: &[f64],
    times: &[f64],
    size: usize,
    rest: RestAt,
) -> VisitedRun
    requires route_len_bound { length route.now ≤ 128 }
    requires route_value { closed_f (drive_f distances.now times.now size) 1 0 route.now ≡ None }
    ensures { let tables = lent customers distances.now times.now size in
        Walks tables (rest_at_of rest) route.now result }
{
    let mut visits = blank_visits();
    let mut list = blank_violations();
    let mut count = 0;
    let mut trip = Trip::start();
    for (i, &cid) in route.iter().enumerate() {
        let prev = trip.prev;
        let leg = open_leg(distances, times, size, prev, cid);
        let index = record_index(cid);
        let call = trip.visit(rest, i + 1, cid, customers[index], leg);
        let visit = call.visit;
        visits[i] = visit;
        let violation = call.violation;
        list[count] = violation;
        count = counted(count, call.shut);
        trip = call.trip;
    }
    VisitedRun {
        visits,
        windows: Violations { list, count },
        trip,
    }
}

// A run with a closed leg: nothing is visited, and its first closed leg is the one violation. Inlined, its lists would
// take stack in a caller that walks a run besides.
#[inline(never)]
pub fn closed_route(leg: usize) -> Built
    ensures { (built_of result ≡ closed_route_f leg) × (result.count ≡ 0) × (result.found ≡ 1) }
{
    let violation = Violation {
        kind: ViolationType::ClosedLeg { leg },
    };
    Built {
        visits: blank_visits(),
        count: 0,
        violations: [violation; MOST_VIOLATIONS],
        found: 1,
        distance: 0.0,
        duration: 0.0,
        lateness: 0.0,
        lateness_cost: 0.0,
        load: Load::none(),
        place: 0,
        start: None,
    }
}

// A run without one, with its visits, totals and violations.
fn open_route(
    route: &[usize],
    customers: [Customer; 64],
    distances: &[f64],
    times: &[f64],
    size: usize,
    capacity: Space,
    limits: RouteLimits,
) -> Built
    requires route_len_bound { length route.now ≤ 128 }
    requires route_value { closed_f (drive_f distances.now times.now size) 1 0 route.now ≡ None }
    ensures { let tables = lent customers distances.now times.now size in
        Builds tables (space_of capacity) (limits_of limits) route.now result }
{
    let rest = limits.rest;
    let at = rest_at(route, customers, distances, times, size, rest);
    let calls = walk(route, customers, distances, times, size, at);
    let trip = calls.trip;
    let label = trip.label;
    let prev = trip.prev;
    let back = open_leg(distances, times, size, prev, 0);
    let distance = trip.distance + back.distance;
    let duration = label.time + back.time;
    let windows = calls.windows;
    let load = trip.load;
    let found = windows.checked(at.missing, load, capacity, limits, distance, duration);
    let visits = calls.visits;
    let violations = found.list;
    let start = at.start;
    Built {
        visits,
        count: route.len(),
        violations,
        found: found.count,
        distance,
        duration,
        lateness: label.lateness,
        lateness_cost: label.cost,
        load,
        place: at.place,
        start,
    }
}

// The run with its visits, totals and violations. Whether a leg is closed is asked before anything is written.
pub fn build_route(
    route: &[usize],
    customers: [Customer; 64],
    distances: &[f64],
    times: &[f64],
    size: usize,
    capacity: Space,
    limits: RouteLimits,
) -> Built
    requires { length route.now ≤ 128 }
    ensures { let tables = lent customers distances.now times.now size in
        Builds tables (space_of capacity) (limits_of limits) route.now result }
{
    let leg = first_closed(route, distances, times, size);
    if leg > 0 {
        return closed_route(leg);
    }
    open_route(route, customers, distances, times, size, capacity, limits)
}
