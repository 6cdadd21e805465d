// The times at which calls are left, from the depot on, with the break still to take and with it taken. A time that
// does not come is infinite.
ghost use Rattle.std.specs.Prelude.{◌≡◌};
ghost use Rattle.definitions.specs.Sheet.{time_table};
ghost use Rattle.distance.specs.Lookup.{number_f};
ghost use Rattle.cut_stops.specs.Stops.{numbers, Long, listed};
ghost use Rattle.improve_base.specs.Leg.{AllOpen};
ghost use Rattle.latest.specs.Times.{sooner, leave, rested, set_out, serve};
ghost use Rattle.latest.specs.Floats.{floats, hours_in, day_in, times_in, serves_f};

use crate::hours::{Day, Hours, hours_at, smaller};
use improve_base::leg::open_leg;
use whole::{infinity, larger};

// As times, or as bounds that these have to stay below.
#[derive(Clone, Copy)]
pub struct Times {
    pub before: f64,
    pub after: f64,
}

// The travel time of a leg; without a time table it is the distance.
pub fn open_time(distances: &[f64], times: &[f64], size: usize, from: usize, to: usize) -> f64
    requires { AllOpen distances.now × AllOpen times.now }
    ensures { result ≡ number_f (time_table distances.now times.now) size from to }
{
    if times.len() == 0 {
        open_leg(distances, size, from, to)
    } else {
        open_leg(times, size, from, to)
    }
}

// Before the first call.
pub fn set_out() -> Times
    ensures { times_in result ≡ set_out floats }
{
    Times {
        before: 0.0,
        after: infinity(),
    }
}

// When a call is left that can be entered from this time on.
pub fn leave(hours: Hours, arrival: f64) -> f64
    ensures { result ≡ leave floats (hours_in hours) arrival }
{
    if arrival < hours.bound {
        larger(arrival, hours.ready) + hours.service
    } else {
        infinity()
    }
}

// After the break, which is begun on arrival here or later.
pub fn rested(day: Day, arrival: f64) -> f64
    ensures { result ≡ rested floats (day_in day) arrival }
{
    let start = larger(arrival, day.earliest);
    if start < day.latest {
        start + day.pause
    } else {
        infinity()
    }
}

// With the break taken, at this call or before.
pub fn taken(day: Day, hours: Hours, arrival: f64, carried: f64) -> f64
    ensures { let here = leave floats (hours_in hours) (rested floats (day_in day) arrival) in
        result ≡ sooner floats here (leave floats (hours_in hours) carried) }
{
    let here = leave(hours, rested(day, arrival));
    smaller(here, leave(hours, carried))
}

// One call more, so long away.
pub fn serve(day: Day, hours: Hours, travel: f64, times: Times) -> Times
    ensures { times_in result ≡ serve floats (day_in day) (hours_in hours) travel (times_in times) }
{
    let arrival = times.before + travel;
    let before = leave(hours, arrival);
    if day.broken {
        let after = taken(day, hours, arrival, times.after + travel);
        return Times { before, after };
    }
    Times {
        before,
        after: times.after,
    }
}

// These calls from a place on.
pub fn serve_all(
    day: Day,
    from: Times,
    place: usize,
    calls: &[usize],
    codes: &[u32],
    figures: &[f64],
    distances: &[f64],
    times: &[f64],
    size: usize,
) -> Times
    requires long { Long (numbers codes.now figures.now) }
    requires all_open { AllOpen distances.now × AllOpen times.now }
    ensures { let lists = numbers codes.now figures.now in
        let tables = listed lists distances.now times.now size in
        times_in result ≡ serves_f tables (day_in day) (times_in from) place calls.now }
{
    let mut left = from;
    let mut last = place;
    for &cid in calls {
        let travel = open_time(distances, times, size, last, cid);
        let hours = hours_at(codes, figures, cid);
        left = serve(day, hours, travel, left);
        last = cid;
    }
    left
}
