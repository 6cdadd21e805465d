// The bounds before which calls have to be reached, from the end of a run back, and whether a call fits between two
// calls: one comparison for each of the two times.
ghost use Rattle.std.specs.Prelude.{◌≡◌, ◌≤◌, length, drop};
ghost use Rattle.cut_stops.specs.Stops.{numbers, Long, listed};
ghost use Rattle.improve_base.specs.Leg.{AllOpen};
ghost use Rattle.latest.specs.Times.{less, entered, paused, home, back, in_time};
ghost use Rattle.latest.specs.Floats.{floats, hours_in, day_in, times_in, hours_f, travel_f, bounds_f, Listed, between_f};

use crate::hours::{Day, Hours, hours_at, smaller};
use crate::onward::{Times, open_time, serve};
use evaluation::route::{call_at, place_before};
use whole::larger;

// The bound so much earlier; nothing is below 0.
pub fn less(bound: f64, by: f64) -> f64
    ensures { result ≡ less floats bound by }
{
    if by < bound { bound - by } else { 0.0 }
}

// Before when a call has to be ready that has to be left before `bound`.
pub fn entered(hours: Hours, bound: f64) -> f64
    ensures { result ≡ entered floats (hours_in hours) bound }
{
    let begin = less(bound, hours.service);
    if hours.ready < begin {
        smaller(begin, hours.bound)
    } else {
        0.0
    }
}

// Before when it has to be reached, with the break there.
pub fn paused(day: Day, bound: f64) -> f64
    ensures { result ≡ paused floats (day_in day) bound }
{
    let start = smaller(less(bound, day.pause), day.latest);
    if day.earliest < start { start } else { 0.0 }
}

// At the depot.
pub fn home(day: Day) -> Times
    ensures { times_in result ≡ home floats (day_in day) }
{
    Times {
        before: day.spare,
        after: day.long,
    }
}

// One call more in front, so far from the next.
pub fn back(day: Day, hours: Hours, travel: f64, bounds: Times) -> Times
    ensures { times_in result ≡ back floats (day_in day) (hours_in hours) travel (times_in bounds) }
{
    let plain = entered(hours, less(bounds.before, travel));
    if day.broken {
        let after = entered(hours, less(bounds.after, travel));
        let broken = paused(day, after);
        return Times {
            before: larger(plain, broken),
            after,
        };
    }
    Times {
        before: plain,
        after: bounds.after,
    }
}

// One call of a run in front, and the place behind it.
pub fn back_to(
    day: Day,
    cid: usize,
    next: usize,
    bounds: Times,
    codes: &[u32],
    figures: &[f64],
    distances: &[f64],
    times: &[f64],
    size: usize,
) -> Times
    requires long { Long (numbers codes.now figures.now) }
    requires all_open { AllOpen distances.now × AllOpen times.now }
    ensures { let lists = numbers codes.now figures.now in
        let t = listed lists distances.now times.now size in
        times_in result ≡ back floats (day_in day) (hours_f t.customers cid) (travel_f t cid next) (times_in bounds) }
{
    let travel = open_time(distances, times, size, cid, next);
    let hours = hours_at(codes, figures, cid);
    back(day, hours, travel, bounds)
}

// The bounds of the calls of a run from number pos on.
pub fn bounds_from(
    day: Day,
    route: &[usize],
    pos: usize,
    codes: &[u32],
    figures: &[f64],
    distances: &[f64],
    times: &[f64],
    size: usize,
) -> Times
    requires long { Long (numbers codes.now figures.now) × (pos ≤ length route.now) }
    requires all_open { AllOpen distances.now × AllOpen times.now }
    ensures { let lists = numbers codes.now figures.now in
        let t = listed lists distances.now times.now size in
        times_in result ≡ bounds_f t (day_in day) (drop pos route.now) }
{
    let mut bounds = home(day);
    let mut next = 0;
    for i in (pos..route.len()).rev() {
        let cid = route[i];
        bounds = back_to(
            day, cid, next, bounds, codes, figures, distances, times, size,
        );
        next = cid;
    }
    bounds
}

// The same, with those of each call from there on, in two lists.
pub fn list_bounds(
    day: Day,
    route: &[usize],
    pos: usize,
    codes: &[u32],
    figures: &[f64],
    distances: &[f64],
    times: &[f64],
    size: usize,
    befores: &mut [f64],
    afters: &mut [f64],
)
    requires long { Long (numbers codes.now figures.now) × (pos ≤ length route.now) × (length route.now ≤ 128) }
    requires befores_len { (length befores.old ≡ 129) × (length afters.old ≡ 129) }
    requires all_open { AllOpen distances.now × AllOpen times.now }
    ensures { let lists = numbers codes.now figures.now in
        let t = listed lists distances.now times.now size in
        Listed t (day_in day) route.now pos befores.new afters.new }
{
    let mut bounds = home(day);
    let mut next = 0;
    let end = route.len();
    befores[end] = bounds.before;
    afters[end] = bounds.after;
    for i in (pos..end).rev() {
        let cid = route[i];
        bounds = back_to(
            day, cid, next, bounds, codes, figures, distances, times, size,
        );
        befores[i] = bounds.before;
        afters[i] = bounds.after;
        next = cid;
    }
}

// Whether a place so long away is reached at one of the two times before its bound.
pub fn in_time(left: Times, travel: f64, due: Times) -> bool
    ensures { result ≡ in_time floats (times_in left) travel (times_in due) }
{
    if left.before + travel < due.before {
        return true;
    }
    left.after + travel < due.after
}

// Whether c fits between the calls of a run before number pos, which are left at `left`, and those from there on, which
// have to be reached before `due`.
pub fn fits_between(
    day: Day,
    left: Times,
    due: Times,
    route: &[usize],
    pos: usize,
    c: usize,
    codes: &[u32],
    figures: &[f64],
    distances: &[f64],
    times: &[f64],
    size: usize,
) -> bool
    requires long { Long (numbers codes.now figures.now) }
    requires all_open { AllOpen distances.now × AllOpen times.now }
    ensures { let lists = numbers codes.now figures.now in
        let t = listed lists distances.now times.now size in
        result ≡ between_f t (day_in day) route.now pos c (times_in left) (times_in due) }
{
    let prev = place_before(route, pos);
    let next = call_at(route, pos);
    let there = open_time(distances, times, size, prev, c);
    let hours = hours_at(codes, figures, c);
    let with_c = serve(day, hours, there, left);
    in_time(with_c, open_time(distances, times, size, c, next), due)
}
