// The totals of a run with its break at each place in turn, and the best of them: none where the run is excused, and
// the calls from the first to the last. Of equals the earlier place counts.
ghost use Rattle.std.specs.Prelude.{◌≡◌, ◌<◌, length};
ghost use Rattle.models.specs.Records.{break_of};
ghost use Rattle.evaluation.specs.Records.{evaluated_of, limits_of, lent};
ghost use Rattle.evaluation.specs.Route.{kept_f};
ghost use Rattle.placements.specs.Placed.{rested_f, placed_f, unplaced_f, least_f, totals_by, eval_by};

use clock::least::pick;
use clock::schedule::{Scheduled, excused, serve};
use distance::leg::leg_between;
use evaluation::route::{RouteEval, allowed, start_of};
use evaluation::schedule::record_index;
use evaluation::way::{Way, plain_from, way_through};
use models::customer::Customer;
use models::limits::RouteLimits;
use models::placement::Placement;
use models::vehicle::VehicleBreak;

// Totals that keep the limits.
pub fn kept(totals: Option<Scheduled>, limits: RouteLimits) -> Option<Scheduled>
    ensures { result ≡ kept_f (limits_of limits) totals }
{
    let s = totals?;
    if limits.allow(s.distance, s.duration) {
        Some(s)
    } else {
        None
    }
}

// The way through the first calls of a run up to number k, from 0, with the break at that call.
pub fn rested_way(
    route: &[usize],
    customers: [Customer; 64],
    distances: &[f64],
    times: &[f64],
    size: usize,
    rest: VehicleBreak,
    k: usize,
) -> Option<Way>
    requires { k < length route.now }
    ensures { let tables = lent customers distances.now times.now size in
        result ≡ rested_f tables (break_of rest) route.now k }
{
    let begun = &route[..k];
    let d = way_through(Way::start(), begun, customers, distances, times, size)?;
    let label = d.label;
    let prev = d.prev;
    let cid = route[k];
    let leg = leg_between(distances, times, size, prev, cid)?;
    let index = record_index(cid);
    let l = serve(label, leg.time, customers[index], k + 1, Some(rest))?;
    Some(Way {
        distance: d.distance + leg.distance,
        label: l,
        prev: cid,
    })
}

// The totals with the break at call number k, from 0, where they keep the limits.
pub fn placed(
    route: &[usize],
    customers: [Customer; 64],
    distances: &[f64],
    times: &[f64],
    size: usize,
    rest: VehicleBreak,
    limits: RouteLimits,
    k: usize,
) -> Option<Scheduled>
    requires { k < length route.now }
    ensures { let tables = lent customers distances.now times.now size in
        result ≡ placed_f tables (break_of rest) (limits_of limits) route.now k }
{
    let w = rested_way(route, customers, distances, times, size, rest, k)?;
    let left = &route[k + 1..];
    kept(
        plain_from(w, left, customers, distances, times, size),
        limits,
    )
}

// The totals without a break, where the run needs none and they keep the limits.
pub fn unplaced(
    route: &[usize],
    customers: [Customer; 64],
    distances: &[f64],
    times: &[f64],
    size: usize,
    rest: VehicleBreak,
    limits: RouteLimits,
) -> Option<Scheduled>
    ensures { let tables = lent customers distances.now times.now size in
        result ≡ unplaced_f tables (break_of rest) (limits_of limits) route.now }
{
    let s = plain_from(Way::start(), route, customers, distances, times, size)?;
    if excused(rest, s.duration) {
        kept(Some(s), limits)
    } else {
        None
    }
}

// The best of all places.
pub fn least(
    route: &[usize],
    customers: [Customer; 64],
    distances: &[f64],
    times: &[f64],
    size: usize,
    rest: VehicleBreak,
    limits: RouteLimits,
) -> Option<Scheduled>
    ensures { let tables = lent customers distances.now times.now size in
        result ≡ least_f tables (break_of rest) (limits_of limits) route.now }
{
    let mut best = unplaced(route, customers, distances, times, size, rest, limits);
    for k in 0..route.len() {
        let here = placed(route, customers, distances, times, size, rest, limits, k);
        best = pick(best, here);
    }
    best
}

// The totals of a run that keeps the limits, with the break where the placement puts it.
pub fn totals_by(
    route: &[usize],
    customers: [Customer; 64],
    distances: &[f64],
    times: &[f64],
    size: usize,
    limits: RouteLimits,
    placement: Placement,
) -> Option<Scheduled>
    ensures { let tables = lent customers distances.now times.now size in
        result ≡ totals_by tables (limits_of limits) placement route.now }
{
    let Placement::Least = placement else {
        return allowed(route, customers, distances, times, size, limits);
    };
    let rest = limits.rest;
    let Some(b) = rest else {
        return allowed(route, customers, distances, times, size, limits);
    };
    least(route, customers, distances, times, size, b, limits)
}

// What a run comes to, with its break where the placement puts it, if it is allowed.
pub fn eval_by(
    route: &[usize],
    customers: [Customer; 64],
    distances: &[f64],
    times: &[f64],
    size: usize,
    limits: RouteLimits,
    placement: Placement,
) -> Option<RouteEval>
    ensures { let tables = lent customers distances.now times.now size in
        evaluated_of result ≡ eval_by tables (limits_of limits) placement route.now }
{
    let s = totals_by(route, customers, distances, times, size, limits, placement)?;
    let rest = limits.rest;
    let start = start_of(route, customers, distances, times, size, rest, s.place);
    Some(RouteEval {
        distance: s.distance,
        duration: s.duration,
        lateness: s.lateness,
        lateness_cost: s.cost,
        place: s.place,
        start,
    })
}
