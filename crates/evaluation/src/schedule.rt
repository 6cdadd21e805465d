// The clock over the calls of a run, from the depot or from where the run has come to (evaluation/schedule.rs).
ghost use Rattle.std.specs.Prelude.{◌≡◌, ◌+◌, ◌<◌, length};
ghost use Rattle.whole.specs.Whole.{fl};
ghost use Rattle.models.specs.Records.{break_of};
ghost use Rattle.clock.specs.Records.{clock_of};
ghost use Rattle.clock.specs.Clock.{begun_f};
ghost use Rattle.evaluation.specs.Records.{lent};
ghost use Rattle.evaluation.specs.Tables.{record_index};
ghost use Rattle.evaluation.specs.Schedule.{end_f, schedule_f};

use clock::schedule::{BreakClock, Scheduled};
use distance::leg::leg_between;
use models::customer::Customer;
use models::vehicle::VehicleBreak;

// A run on its way with a break: its clock, and the distance travelled.
#[derive(Clone, Copy)]
pub struct Timed {
    pub clock: BreakClock,
    pub distance: f64,
}

impl Timed {
    // Before the first call.
    pub fn start(rest: VehicleBreak) -> Timed
        ensures { (clock_of result.clock ≡ begun_f (break_of rest)) × (result.distance ≡ fl 0) }
    {
        Timed {
            clock: BreakClock::new(rest),
            distance: 0.0,
        }
    }
}

// Which of the 64 records a call has: its own, or the first for a call beyond them.
pub fn record_index(cid: usize) -> usize
    ensures { (result ≡ record_index cid) × (result < 64) }
{
    if cid < 64 { cid } else { 0 }
}

// The totals of a run that these calls end, if it can be had.
pub fn clock_from(
    from: Timed,
    calls: &[usize],
    customers: [Customer; 64],
    distances: &[f64],
    times: &[f64],
    size: usize,
) -> Option<Scheduled>
    requires { from.clock.index + length calls.now < 0xFFFF_FFFF_FFFF_FFFF }
    ensures { let tables = lent customers distances.now times.now size in
        result ≡ end_f tables (clock_of from.clock) from.distance calls.now }
{
    let mut clock = from.clock;
    let mut distance = from.distance;
    for &cid in calls {
        let prev = clock.prev;
        let leg = leg_between(distances, times, size, prev, cid)?;
        distance = distance + leg.distance;
        let index = record_index(cid);
        clock = clock.push(cid, customers[index], leg.time);
        if !clock.alive() {
            return None;
        }
    }
    let last = clock.prev;
    let back = leg_between(distances, times, size, last, 0)?;
    clock.finish(distance + back.distance, back.time)
}

// The clock of a whole run with this break.
pub fn schedule(
    route: &[usize],
    customers: [Customer; 64],
    distances: &[f64],
    times: &[f64],
    size: usize,
    rest: VehicleBreak,
) -> Option<Scheduled>
    ensures { let tables = lent customers distances.now times.now size in
        result ≡ schedule_f tables (break_of rest) route.now }
{
    clock_from(Timed::start(rest), route, customers, distances, times, size)
}
