// A call and a day by their times alone: what decides whether a run is in time.
ghost use Rattle.std.specs.Prelude.{◌≡◌};
ghost use Rattle.models.specs.Records.{customer_of, opening_of};
ghost use Rattle.evaluation.specs.Records.{limits_of};
ghost use Rattle.cut_stops.specs.Stops.{numbers, Long, records_in};
ghost use Rattle.latest.specs.Times.{sooner, above, opens_at, shuts_at, hours_of};
ghost use Rattle.latest.specs.Floats.{floats, hours_in, day_in, hours_f, day_f};

use cut_stops::stops::customer_at;
use evaluation::schedule::record_index;
use models::customer::{Customer, TimeWindow};
use models::limits::RouteLimits;
use whole::infinity;

// A call: from when on it is served, before when it has to be reached, and how long its service is.
#[derive(Clone, Copy)]
pub struct Hours {
    pub ready: f64,
    pub bound: f64,
    pub service: f64,
}

// Home before `long`, and before `spare` where the break is still to take. The break begins from `earliest` on and
// before `latest`; without one the last three are not read.
#[derive(Clone, Copy)]
pub struct Day {
    pub long: f64,
    pub spare: f64,
    pub broken: bool,
    pub earliest: f64,
    pub latest: f64,
    pub pause: f64,
}

// The smaller of two numbers.
pub fn smaller(a: f64, b: f64) -> f64
    ensures { result ≡ sooner floats a b }
{
    if a < b { a } else { b }
}

// From when on a call is served.
pub fn opens_at(opening: Option<TimeWindow>) -> f64
    ensures { result ≡ opens_at floats (opening_of opening) }
{
    match opening {
        None => 0.0,
        Some(w) => w.ready,
    }
}

// Before when a call has to be reached: above due, and at any time where there is no window or a penalty.
pub fn shuts_at(opening: Option<TimeWindow>, penalty: Option<f64>) -> f64
    ensures { result ≡ shuts_at floats (opening_of opening) penalty }
{
    let Some(w) = opening else {
        return infinity();
    };
    match penalty {
        None => w.due + 1.0,
        Some(_) => infinity(),
    }
}

// The times of a record.
pub fn hours_of(customer: Customer) -> Hours
    ensures { hours_in result ≡ hours_of floats (customer_of customer) }
{
    let opening = customer.time_window;
    let penalty = customer.lateness_penalty;
    Hours {
        ready: opens_at(opening),
        bound: shuts_at(opening, penalty),
        service: customer.service_duration,
    }
}

// The same of a call, whose record is in the lists.
pub fn hours_at(codes: &[u32], figures: &[f64], cid: usize) -> Hours
    requires { Long (numbers codes.now figures.now) }
    ensures { hours_in result ≡ hours_f (records_in (numbers codes.now figures.now)) cid }
{
    let index = record_index(cid);
    hours_of(customer_at(codes, figures, index))
}

// Above a limit.
pub fn above_limit(limit: Option<f64>) -> f64
    ensures { result ≡ above floats limit }
{
    match limit {
        None => infinity(),
        Some(most) => most + 1.0,
    }
}

// The times of a day, by the limit of duration and the break.
pub fn day_of(limits: RouteLimits) -> Day
    ensures { day_in result ≡ day_f (limits_of limits) }
{
    let rest = limits.rest;
    let max = limits.max_duration;
    let long = above_limit(max);
    match rest {
        None => Day {
            long,
            spare: long,
            broken: false,
            earliest: 0.0,
            latest: 0.0,
            pause: 0.0,
        },
        Some(b) => Day {
            long,
            spare: smaller(long, b.earliest),
            broken: true,
            earliest: b.earliest,
            latest: b.latest + 1.0,
            pause: b.duration,
        },
    }
}
