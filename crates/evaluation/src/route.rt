// The evaluations of a run (evaluation/mod.rs): with a break by its clock, and without one by the plain way through its
// calls. None of them looks at load.
ghost use Rattle.std.specs.Prelude.{◌≡◌, get_or};
ghost use Rattle.models.specs.Records.{break_of, rest_of};
ghost use Rattle.evaluation.specs.Records.{taken_of, evaluated_of, limits_of, lent};
ghost use Rattle.evaluation.specs.Tables.{place_before};
ghost use Rattle.evaluation.specs.Route.{totals_f, allowed_f, break_start_at_f, start_f, break_f, eval_f, feasible_f, cost_f};

use crate::schedule::schedule;
use crate::way::{Way, plain_from, way_through};
use clock::schedule::{Scheduled, break_start_at};
use distance::leg::leg_between;
use models::count::fewer;
use models::customer::Customer;
use models::limits::RouteLimits;
use models::vehicle::VehicleBreak;
use whole::infinity;

// The number of the call, from 1, at which a run takes its break, or 0, and when that starts.
#[derive(Clone, Copy)]
pub struct Taken {
    pub place: usize,
    pub start: Option<f64>,
}

// What `route_eval` reports of a run that is allowed. The place is that of the break, from 1, or 0.
#[derive(Clone, Copy)]
pub struct RouteEval {
    pub distance: f64,
    pub duration: f64,
    pub lateness: f64,
    pub lateness_cost: f64,
    pub place: usize,
    pub start: Option<f64>,
}

// The totals of a run, whatever the limits, if it can be had.
pub fn totals(
    route: &[usize],
    customers: [Customer; 64],
    distances: &[f64],
    times: &[f64],
    size: usize,
    rest: Option<VehicleBreak>,
) -> Option<Scheduled>
    ensures { let tables = lent customers distances.now times.now size in
        result ≡ totals_f tables (rest_of rest) route.now }
{
    match rest {
        None => plain_from(Way::start(), route, customers, distances, times, size),
        Some(b) => schedule(route, customers, distances, times, size, b),
    }
}

// The totals of a run that keeps the limits.
pub fn allowed(
    route: &[usize],
    customers: [Customer; 64],
    distances: &[f64],
    times: &[f64],
    size: usize,
    limits: RouteLimits,
) -> Option<Scheduled>
    ensures { let tables = lent customers distances.now times.now size in
        result ≡ allowed_f tables (limits_of limits) route.now }
{
    let rest = limits.rest;
    let s = totals(route, customers, distances, times, size, rest)?;
    if limits.allow(s.distance, s.duration) {
        Some(s)
    } else {
        None
    }
}

// Whether a run serves each call in time, or late at a penalty, places its break and keeps the limits.
pub fn route_feasible(
    route: &[usize],
    customers: [Customer; 64],
    distances: &[f64],
    times: &[f64],
    size: usize,
    limits: RouteLimits,
) -> bool
    ensures { let tables = lent customers distances.now times.now size in
        result ≡ feasible_f tables (limits_of limits) route.now }
{
    allowed(route, customers, distances, times, size, limits).is_some()
}

// What the searches minimise: the distance and the lateness cost, infinite where the run is not allowed.
pub fn effective_cost(
    route: &[usize],
    customers: [Customer; 64],
    distances: &[f64],
    times: &[f64],
    size: usize,
    limits: RouteLimits,
) -> f64
    ensures { let tables = lent customers distances.now times.now size in
        result ≡ cost_f tables (limits_of limits) route.now }
{
    match allowed(route, customers, distances, times, size, limits) {
        None => infinity(),
        Some(s) => s.distance + s.cost,
    }
}

// Call number k of a run, from 0; the depot where there is none.
pub fn call_at(route: &[usize], k: usize) -> usize
    ensures { result ≡ get_or route.now k 0 }
{
    if k < route.len() { route[k] } else { 0 }
}

// The place before call number k, from 0: the call before it, or the depot.
pub fn place_before(route: &[usize], k: usize) -> usize
    ensures { result ≡ place_before route.now k }
{
    if k == 0 { 0 } else { call_at(route, k - 1) }
}

// When the break starts that is taken at call number k, from 0: the calls before it are served without it. None where
// they fail, or the leg to the call is closed.
pub fn break_start(
    route: &[usize],
    customers: [Customer; 64],
    distances: &[f64],
    times: &[f64],
    size: usize,
    rest: VehicleBreak,
    k: usize,
) -> Option<f64>
    ensures { let tables = lent customers distances.now times.now size in
        result ≡ break_start_at_f tables (break_of rest) k route.now }
{
    let n = fewer(k, route.len());
    let begun = &route[..n];
    let d = way_through(Way::start(), begun, customers, distances, times, size)?;
    let label = d.label;
    let prev = d.prev;
    let cid = call_at(route, k);
    let leg = leg_between(distances, times, size, prev, cid)?;
    Some(break_start_at(rest, label.time + leg.time))
}

// When the break of that place starts; without a break, or with a place of 0, not at all.
pub fn start_of(
    route: &[usize],
    customers: [Customer; 64],
    distances: &[f64],
    times: &[f64],
    size: usize,
    rest: Option<VehicleBreak>,
    place: usize,
) -> Option<f64>
    ensures { let tables = lent customers distances.now times.now size in
        result ≡ start_f tables (rest_of rest) place route.now }
{
    let b = rest?;
    if place == 0 {
        return None;
    }
    break_start(route, customers, distances, times, size, b, place - 1)
}

// The break of a run, where its clock puts it.
pub fn break_of(
    run: &[usize],
    customers: [Customer; 64],
    distances: &[f64],
    times: &[f64],
    size: usize,
    rest: Option<VehicleBreak>,
) -> Taken
    ensures { let tables = lent customers distances.now times.now size in
        taken_of result ≡ break_f tables (rest_of rest) run.now }
{
    let Some(home) = totals(run, customers, distances, times, size, rest) else {
        return Taken {
            place: 0,
            start: None,
        };
    };
    let place = home.place;
    let start = start_of(run, customers, distances, times, size, rest, place);
    Taken { place, start }
}

// What a run comes to, with its break, if it is allowed.
pub fn route_eval(
    route: &[usize],
    customers: [Customer; 64],
    distances: &[f64],
    times: &[f64],
    size: usize,
    limits: RouteLimits,
) -> Option<RouteEval>
    ensures { let tables = lent customers distances.now times.now size in
        evaluated_of result ≡ eval_f tables (limits_of limits) route.now }
{
    let s = allowed(route, customers, distances, times, size, limits)?;
    let rest = limits.rest;
    let start = start_of(route, customers, distances, times, size, rest, s.place);
    Some(RouteEval {
        distance: s.distance,
        duration: s.duration,
        lateness: s.lateness,
        lateness_cost: s.cost,
        place: s.place,
        start,
    })
}
