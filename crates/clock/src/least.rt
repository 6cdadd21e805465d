// The end of a run with one of its break places, and the better of two: lower lateness pay, then the earlier return.
ghost use Rattle.std.specs.Prelude.{◌≡◌};
ghost use Rattle.models.specs.Records.{break_of};
ghost use Rattle.clock.specs.Least.{limits_on, kept_home_f, excused_home_f, better_f, pick_f};

use crate::schedule::{Label, Scheduled, excused};
use models::limits::RouteLimits;
use models::vehicle::VehicleBreak;

// Home with the break taken, where that keeps the limits.
pub fn kept_home(label: Label, limits: RouteLimits, distance: f64, back: f64) -> Option<Scheduled>
    ensures { result ≡ kept_home_f (limits_on limits) distance back label }
{
    if limits.allow(distance, label.time + back) {
        Some(label.home(distance, back))
    } else {
        None
    }
}

// Home without a break, where it needs none and that keeps the limits.
pub fn excused_home(
    label: Label,
    rest: VehicleBreak,
    limits: RouteLimits,
    distance: f64,
    back: f64,
) -> Option<Scheduled>
    ensures { result ≡ excused_home_f (break_of rest) (limits_on limits) distance back label }
{
    if excused(rest, label.time + back) {
        kept_home(label, limits, distance, back)
    } else {
        None
    }
}

// Better: less is paid for lateness or, with the same pay, home is reached earlier.
pub fn better(y: Scheduled, x: Scheduled) -> bool
    ensures { result ≡ better_f y x }
{
    if y.cost < x.cost {
        return true;
    }
    if y.cost == x.cost {
        return y.duration < x.duration;
    }
    false
}

// The better of the two, each of which may be none; a tie keeps the first.
pub fn pick(a: Option<Scheduled>, b: Option<Scheduled>) -> Option<Scheduled>
    ensures { result ≡ pick_f a b }
{
    let Some(x) = a else {
        return b;
    };
    let Some(y) = b else {
        return a;
    };
    if better(y, x) { Some(y) } else { Some(x) }
}
