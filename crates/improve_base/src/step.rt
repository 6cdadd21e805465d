// A bus on its way, by the way with no break or by its clock: one call more, whose record is in the lists of numbers,
// and the way home.
ghost use Rattle.std.specs.Prelude.{◌≡◌, ◌<◌, Some};
ghost use Rattle.distance.specs.Lookup as Lookup;
ghost use Rattle.evaluation.specs.Schedule.{tick_f};
ghost use Rattle.cut_stops.specs.Stops.{numbers, Long, listed};
ghost use Rattle.improve_base.specs.Leg.{AllOpen};
ghost use Rattle.improve_base.specs.Prefix.{plain, timed_of, clocked_at, drive_f, home_from_f};

use crate::leg::leg_on;
use clock::schedule::Scheduled;
use cut_stops::stops::customer_at;
use evaluation::schedule::{Timed, record_index};
use evaluation::way::Way;

// One call more with no break.
pub fn drive_on(
    way: Way,
    cid: usize,
    codes: &[u32],
    figures: &[f64],
    distances: &[f64],
    times: &[f64],
    size: usize,
) -> Option<Way>
    requires long { Long (numbers codes.now figures.now) }
    requires all_open { AllOpen distances.now × AllOpen times.now }
    ensures { let lists = numbers codes.now figures.now in
        let tables = listed lists distances.now times.now size in
        result ≡ drive_f tables way cid }
{
    let prev = way.prev;
    let leg = leg_on(distances, times, size, prev, cid);
    let index = record_index(cid);
    let customer = customer_at(codes, figures, index);
    way.on(cid, customer, leg.distance, leg.time)
}

// One call more by the clock.
pub fn tick_on(
    timed: Timed,
    cid: usize,
    codes: &[u32],
    figures: &[f64],
    distances: &[f64],
    times: &[f64],
    size: usize,
) -> Timed
    requires long { Long (numbers codes.now figures.now) × (timed.clock.index < 0xFFFF_FFFF_FFFF_FFFF) }
    requires all_open { AllOpen distances.now × AllOpen times.now }
    ensures { let lists = numbers codes.now figures.now in
        let tables = listed lists distances.now times.now size in
        Some (timed_of result) ≡ tick_f tables (timed_of timed) cid }
{
    let old = timed.clock;
    let prev = old.prev;
    let leg = leg_on(distances, times, size, prev, cid);
    let index = record_index(cid);
    let customer = customer_at(codes, figures, index);
    Timed {
        clock: old.push(cid, customer, leg.time),
        distance: timed.distance + leg.distance,
    }
}

// Home with no break.
pub fn way_home(way: Way, distances: &[f64], times: &[f64], size: usize) -> Option<Scheduled>
    requires { AllOpen distances.now × AllOpen times.now }
    ensures { let leg = Lookup.drive_f distances.now times.now size in
        result ≡ home_from_f leg (plain way) }
{
    let label = way.label;
    let prev = way.prev;
    let back = leg_on(distances, times, size, prev, 0);
    Some(label.home(way.distance + back.distance, back.time))
}

// Home by the clock.
pub fn clock_home(timed: Timed, distances: &[f64], times: &[f64], size: usize) -> Option<Scheduled>
    requires { AllOpen distances.now × AllOpen times.now }
    ensures { let leg = Lookup.drive_f distances.now times.now size in
        result ≡ home_from_f leg (clocked_at (timed_of timed)) }
{
    let clock = timed.clock;
    let prev = clock.prev;
    let back = leg_on(distances, times, size, prev, 0);
    clock.finish(timed.distance + back.distance, back.time)
}
