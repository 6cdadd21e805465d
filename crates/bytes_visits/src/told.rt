// What a timeline comes to, besides its rows.
ghost use Rattle.std.specs.Prelude.{◌≡◌};
ghost use Rattle.timeline.specs.Timing.{timeline_in};
ghost use Rattle.bytes_visits.specs.Told.{taken_f, began_f, told_f};

use timeline::timeline::Timeline;

// How many visits and violations there are; the number of the call at which the break is taken, from 1, or 0, and when
// it starts, or 0.0; and the totals.
#[derive(Clone, Copy)]
pub struct Told {
    pub visits: usize,
    pub violations: usize,
    pub place: usize,
    pub start: f64,
    pub distance: f64,
    pub duration: f64,
    pub lateness: f64,
    pub lateness_cost: f64,
}

// The call at which the break is taken: the given one, where it starts.
pub fn taken_at(start: Option<f64>, place: usize) -> usize
    ensures { result ≡ taken_f start place }
{
    match start {
        None => 0,
        Some(_) => place,
    }
}

// When it starts, or 0.0.
pub fn began(start: Option<f64>) -> f64
    ensures { result ≡ began_f start }
{
    match start {
        None => 0.0,
        Some(time) => time,
    }
}

pub fn told_of(line: Timeline) -> Told
    ensures { result ≡ told_f line.run.count line.run.found (timeline_in line) }
{
    let run = line.run;
    let start = run.start;
    Told {
        visits: run.count,
        violations: run.found,
        place: taken_at(start, run.place),
        start: began(start),
        distance: run.distance,
        duration: run.duration,
        lateness: run.lateness,
        lateness_cost: run.lateness_cost,
    }
}
