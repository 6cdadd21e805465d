// The mark of one run: its legs, its load, the walk through its calls and its totals are tested in this order.
ghost use Rattle.std.specs.Prelude.{◌≡◌, map, ◌≤◌, length};
ghost use Rattle.models.specs.Load.{space_of, load_of};
ghost use Rattle.models.specs.Records.{customer_of, rest_of};
ghost use Rattle.evaluation.specs.Records.{limits_of};
ghost use Rattle.evaluation.specs.Tables.{Asks};
ghost use Rattle.marker.specs.RunMark.{ground_of, placed_f, totals_mark_f, overload_f, run_mark_f};

use crate::verdict::Verdict;
use crate::walk::{break_or, walk};
use clock::schedule::{Scheduled, excused};
use evaluation::load::{Demands, load_of};
use evaluation::way::first_closed;
use models::customer::Customer;
use models::head::Head;
use models::limits::{RouteLimits, allows, limit_or_zero};
use models::load::{Load, Space};
use models::vehicle::VehicleBreak;

// Whether the break may have this place in a run of so many calls that is home at `duration`; with 0 it must need none.
pub fn placed(rest: Option<VehicleBreak>, place: usize, calls: usize, duration: f64) -> bool
    ensures { result ≡ placed_f (rest_of rest) place calls duration }
{
    let Some(b) = rest else {
        return place == 0;
    };
    if place == 0 {
        return excused(b, duration);
    }
    place <= calls
}

// What the run comes to: a missing break where one is needed, distance, duration, and else its cost.
pub fn mark_totals(
    run: usize,
    place: usize,
    calls: usize,
    fixed: f64,
    limits: RouteLimits,
    totals: Scheduled,
) -> Result<f64, Verdict>
    ensures { result ≡ totals_mark_f (limits_of limits) fixed run place calls totals }
{
    let rest = limits.rest;
    let max_distance = limits.max_distance;
    let max_duration = limits.max_duration;
    let distance = totals.distance;
    let duration = totals.duration;
    if !placed(rest, place, calls, duration) {
        let b = break_or(rest);
        return Err(Verdict::BreakMissing {
            run,
            duration,
            earliest: b.earliest,
        });
    }
    if !allows(max_distance, distance) {
        return Err(Verdict::TooFar {
            run,
            distance,
            limit: limit_or_zero(max_distance),
        });
    }
    if !allows(max_duration, duration) {
        return Err(Verdict::TooLong {
            run,
            duration,
            limit: limit_or_zero(max_duration),
        });
    }
    Ok(fixed + distance + totals.cost)
}

// The measure in which a load that does not fit is over what the vehicle holds: seats, and where these are within it
// wheelchair places.
pub fn overload(run: usize, load: Load, capacity: Space) -> Verdict
    ensures { result ≡ overload_f run (load_of load) (space_of capacity) }
{
    if load.seated(capacity) {
        return Verdict::WheelchairOverload {
            run,
            load: load.wheelchairs,
            capacity: capacity.wheelchairs,
        };
    }
    Verdict::Overload {
        run,
        load: load.seats,
        capacity: capacity.seats,
    }
}

// The first fault of run number `run` with its break place, or its cost: a leg that is closed, wherever it is in the
// run, before all others. The demands are what the customers ask for.
pub fn mark_run(
    run: usize,
    calls: &[usize],
    place: usize,
    customers: [Customer; 64],
    demands: &Demands,
    distances: &[f64],
    times: &[f64],
    head: Head,
) -> Result<f64, Verdict>
    requires calls_len_bound { length calls.now ≤ 128 }
    requires asks { Asks (map customer_of customers) demands.now }
    ensures { let area = ground_of customers distances.now times.now head in
        result ≡ run_mark_f area run calls.now place }
{
    let leg = first_closed(calls, distances, times, head.places);
    if leg > 0 {
        return Err(Verdict::RoadClosed { run, leg });
    }
    let load = load_of(calls, demands);
    let capacity = head.capacity;
    if !load.fits(capacity) {
        return Err(overload(run, load, capacity));
    }
    let limits = head.limits;
    let rest = limits.rest;
    let totals = walk(
        run,
        calls,
        place,
        customers,
        distances,
        times,
        head.places,
        rest,
    )?;
    mark_totals(run, place, calls.len(), head.fixed_cost, limits, totals)
}
