// The timeline of a run on the arrays of an accepted sheet: refused by number with nothing written, or told.
ghost use Rattle.std.specs.Prelude.{◌≡◌, cond, ◌≤◌, length};
ghost use Rattle.basics.specs.Options.{present, value_or};
ghost use Rattle.definitions.specs.Bytes.{numbers_of};
ghost use Rattle.models.specs.Load.{space_of};
ghost use Rattle.models.specs.Records.{rest_of};
ghost use Rattle.evaluation.specs.Records.{lent, limits_of};
ghost use Rattle.timeline.specs.Timing.{timeline_f};
ghost use Rattle.bytes_visits.specs.Told.{lists, run_refusal, Roomy, RunTimed, LineWritten};

use crate::rows::{write_figures, write_loads, write_numbers, write_times};
use crate::told::{Told, told_of};
use byte_lists::widen;
use models::customer::Customer;
use models::domain::MOST_CALLS;
use models::head::Head;
use models::vehicle::{VehicleBreak, has_rest};
use refuse_numbers::calls::bad_run_list;
use timeline::timeline::{Timeline, timeline_of};

#[derive(Clone, Copy)]
pub enum Visiting {
    Refused(u32),
    Told(Told),
}

// The last call at which a run of so many can have its break: none on a sheet without one.
pub fn last_place(rest: Option<VehicleBreak>, calls: usize) -> usize
    ensures { result ≡ cond (present (rest_of rest)) calls 0 }
{
    if has_rest(rest) { calls } else { 0 }
}

// A run out of range, then a break place beyond it, or on a sheet without a break.
pub fn refuse_run(places: usize, rest: Option<VehicleBreak>, run: &[u8], place: usize) -> u32
    ensures { result ≡ value_or 0 (run_refusal places (present (rest_of rest)) (numbers_of run.now) place) }
{
    if bad_run_list(places, run) {
        return 1;
    }
    if last_place(rest, run.len()) < place {
        return 5;
    }
    0
}

// The rows of a timeline.
pub fn write_line(
    line: Timeline,
    times: &mut [f64],
    loads: &mut [u64],
    numbers: &mut [u8],
    figures: &mut [f64],
)
    requires count_bound { (line.run.count ≤ 128) × (line.run.found ≤ 132) }
    requires roomy { Roomy (lists times.old loads.old numbers.old figures.old) }
    ensures { let old = lists times.old loads.old numbers.old figures.old in
        let new = lists times.new loads.new numbers.new figures.new in
        LineWritten line old new }
{
    let run = line.run;
    let visits = run.visits;
    let begins = line.begins;
    let violations = run.violations;
    write_times(visits, begins, run.count, &mut *times);
    write_loads(visits, run.count, &mut *loads);
    write_numbers(violations, run.found, &mut *numbers);
    write_figures(violations, run.found, &mut *figures);
}

// The timeline of the run given, with its break at the place given.
pub fn time_run(
    head: Head,
    all: [Customer; 64],
    distances: &[f64],
    times: &[f64],
    run: &[u8],
    place: usize,
    hours: &mut [f64],
    loads: &mut [u64],
    numbers: &mut [u8],
    figures: &mut [f64],
) -> Visiting
    requires { Roomy (lists hours.old loads.old numbers.old figures.old) }
    ensures { let tables = lent all distances.now times.now head.places in
        let old = lists hours.old loads.old numbers.old figures.old in
        let new = lists hours.new loads.new numbers.new figures.new in
        RunTimed tables head (numbers_of run.now) place old result new }
{
    let limits = head.limits;
    let rest = limits.rest;
    let number = refuse_run(head.places, rest, run, place);
    if number != 0 {
        return Visiting::Refused(number);
    }
    let mut calls = [0usize; MOST_CALLS];
    let k = widen(run, &mut calls);
    let capacity = head.capacity;
    let line = timeline_of(
        &calls[..k],
        all,
        distances,
        times,
        head.places,
        capacity,
        limits,
        place,
    );
    write_line(line, &mut *hours, &mut *loads, &mut *numbers, &mut *figures);
    Visiting::Told(told_of(line))
}
