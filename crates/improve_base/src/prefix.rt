// A run whose first calls are fixed: where they leave the bus, so that a run with the same first calls is tested from
// there on, with the same sums in the same order. The records of the calls are read from lists of numbers, which are
// lent, where a table of records would be copied.
ghost use Rattle.std.specs.Prelude.{◌≡◌, ◌+◌, ◌<◌, length};
ghost use Rattle.distance.specs.Lookup as Lookup;
ghost use Rattle.models.specs.Records.{rest_of};
ghost use Rattle.evaluation.specs.Records.{limits_of};
ghost use Rattle.cut_stops.specs.Stops.{numbers, Long, listed};
ghost use Rattle.improve_base.specs.Leg.{AllOpen};
ghost use Rattle.improve_base.specs.Prefix.{plain, timed_of, clocked_at, prefix_of, failed_f, index_f, set_out_f, on_f, on_all_f, home_from_f, feasible_from_f};

use crate::step::{clock_home, drive_on, tick_on, way_home};
use clock::schedule::Scheduled;
use evaluation::schedule::Timed;
use evaluation::way::Way;
use models::limits::RouteLimits;
use models::vehicle::VehicleBreak;

// Calls that cannot be served, or where they leave the bus: the way with no break, or the clock of a run with one.
#[derive(Clone, Copy)]
pub enum Prefix {
    Failed,
    Plain(Way),
    Clock(Timed),
}

// Before the first call.
pub fn set_out(rest: Option<VehicleBreak>) -> Prefix
    ensures { prefix_of result ≡ set_out_f (rest_of rest) }
{
    match rest {
        None => Prefix::Plain(Way::start()),
        Some(b) => Prefix::Clock(Timed::start(b)),
    }
}

// One call more with no break.
pub fn way_on(
    way: Way,
    cid: usize,
    codes: &[u32],
    figures: &[f64],
    distances: &[f64],
    times: &[f64],
    size: usize,
) -> Prefix
    requires long { Long (numbers codes.now figures.now) }
    requires all_open { AllOpen distances.now × AllOpen times.now }
    ensures { let lists = numbers codes.now figures.now in
        let tables = listed lists distances.now times.now size in
        prefix_of result ≡ on_f tables (plain way) cid }
{
    match drive_on(way, cid, codes, figures, distances, times, size) {
        None => Prefix::Failed,
        Some(w) => Prefix::Plain(w),
    }
}

// One call more by the clock.
pub fn clock_on(
    timed: Timed,
    cid: usize,
    codes: &[u32],
    figures: &[f64],
    distances: &[f64],
    times: &[f64],
    size: usize,
) -> Prefix
    requires long { Long (numbers codes.now figures.now) × (timed.clock.index < 0xFFFF_FFFF_FFFF_FFFF) }
    requires all_open { AllOpen distances.now × AllOpen times.now }
    ensures { let lists = numbers codes.now figures.now in
        let tables = listed lists distances.now times.now size in
        prefix_of result ≡ on_f tables (clocked_at (timed_of timed)) cid }
{
    let new = tick_on(timed, cid, codes, figures, distances, times, size);
    let clock = new.clock;
    if clock.alive() {
        Prefix::Clock(new)
    } else {
        Prefix::Failed
    }
}

// One call more; its record is in the lists.
pub fn go_on(
    prefix: Prefix,
    cid: usize,
    codes: &[u32],
    figures: &[f64],
    distances: &[f64],
    times: &[f64],
    size: usize,
) -> Prefix
    requires long { Long (numbers codes.now figures.now) × (index_f (prefix_of prefix) < 0xFFFF_FFFF_FFFF_FFFF) }
    requires all_open { AllOpen distances.now × AllOpen times.now }
    ensures { let lists = numbers codes.now figures.now in
        let tables = listed lists distances.now times.now size in
        prefix_of result ≡ on_f tables (prefix_of prefix) cid }
{
    match prefix {
        Prefix::Failed => Prefix::Failed,
        Prefix::Plain(way) => way_on(way, cid, codes, figures, distances, times, size),
        Prefix::Clock(timed) => clock_on(timed, cid, codes, figures, distances, times, size),
    }
}

// These calls with no break, one after the other, as far as they can be served.
pub fn way_through(
    from: Way,
    calls: &[usize],
    codes: &[u32],
    figures: &[f64],
    distances: &[f64],
    times: &[f64],
    size: usize,
) -> Prefix
    requires long { Long (numbers codes.now figures.now) }
    requires all_open { AllOpen distances.now × AllOpen times.now }
    ensures { let lists = numbers codes.now figures.now in
        let tables = listed lists distances.now times.now size in
        prefix_of result ≡ on_all_f tables (plain from) calls.now }
{
    let mut way = from;
    for cid in calls {
        let Some(w) = drive_on(way, *cid, codes, figures, distances, times, size) else {
            return Prefix::Failed;
        };
        way = w;
    }
    Prefix::Plain(way)
}

// The same by the clock.
pub fn clock_through(
    from: Timed,
    calls: &[usize],
    codes: &[u32],
    figures: &[f64],
    distances: &[f64],
    times: &[f64],
    size: usize,
) -> Prefix
    requires long { Long (numbers codes.now figures.now) }
    requires calls_bound { from.clock.index + length calls.now < 0xFFFF_FFFF_FFFF_FFFF }
    requires all_open { AllOpen distances.now × AllOpen times.now }
    ensures { let lists = numbers codes.now figures.now in
        let tables = listed lists distances.now times.now size in
        prefix_of result ≡ on_all_f tables (clocked_at (timed_of from)) calls.now }
{
    let mut timed = from;
    for cid in calls {
        timed = tick_on(timed, *cid, codes, figures, distances, times, size);
        let clock = timed.clock;
        if !clock.alive() {
            return Prefix::Failed;
        }
    }
    Prefix::Clock(timed)
}

// These calls, one after the other, as far as they can be served; their records are in the lists.
pub fn go_through(
    prefix: Prefix,
    calls: &[usize],
    codes: &[u32],
    figures: &[f64],
    distances: &[f64],
    times: &[f64],
    size: usize,
) -> Prefix
    requires long { Long (numbers codes.now figures.now) }
    requires calls_bound { index_f (prefix_of prefix) + length calls.now < 0xFFFF_FFFF_FFFF_FFFF }
    requires all_open { AllOpen distances.now × AllOpen times.now }
    ensures { let lists = numbers codes.now figures.now in
        let tables = listed lists distances.now times.now size in
        prefix_of result ≡ on_all_f tables (prefix_of prefix) calls.now }
{
    match prefix {
        Prefix::Failed => Prefix::Failed,
        Prefix::Plain(way) => way_through(way, calls, codes, figures, distances, times, size),
        Prefix::Clock(timed) => clock_through(timed, calls, codes, figures, distances, times, size),
    }
}

// The totals of the run that goes home from here.
pub fn home_from(prefix: Prefix, distances: &[f64], times: &[f64], size: usize) -> Option<Scheduled>
    requires { AllOpen distances.now × AllOpen times.now }
    ensures { let leg = Lookup.drive_f distances.now times.now size in
        result ≡ home_from_f leg (prefix_of prefix) }
{
    match prefix {
        Prefix::Failed => None,
        Prefix::Plain(way) => way_home(way, distances, times, size),
        Prefix::Clock(timed) => clock_home(timed, distances, times, size),
    }
}

// Whether a run that these calls end is feasible; their records are in the lists.
pub fn feasible_from(
    prefix: Prefix,
    calls: &[usize],
    codes: &[u32],
    figures: &[f64],
    distances: &[f64],
    times: &[f64],
    size: usize,
    limits: RouteLimits,
) -> bool
    requires long { Long (numbers codes.now figures.now) }
    requires calls_bound { index_f (prefix_of prefix) + length calls.now < 0xFFFF_FFFF_FFFF_FFFF }
    requires all_open { AllOpen distances.now × AllOpen times.now }
    ensures { let lists = numbers codes.now figures.now in
        let tables = listed lists distances.now times.now size in
        result ≡ feasible_from_f tables (limits_of limits) (prefix_of prefix) calls.now }
{
    let end = go_through(prefix, calls, codes, figures, distances, times, size);
    match home_from(end, distances, times, size) {
        None => false,
        Some(s) => limits.allow(s.distance, s.duration),
    }
}

// Whether the calls cannot be served.
pub fn has_failed(prefix: Prefix) -> bool
    ensures { result ≡ failed_f (prefix_of prefix) }
{
    matches!(prefix, Prefix::Failed)
}
