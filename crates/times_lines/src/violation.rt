// The line of a violation.
ghost use Rattle.std.specs.Prelude.{◌+◌, ◌≤◌, length};
ghost use Rattle.listing_lines.specs.Put.{Put};
ghost use Rattle.texts.specs.TimesText as Text;
ghost use Rattle.times_lines.specs.Told.{violation_in};

use listing_lines::number::whole_part;
use templates::fill::filled;
use visits::visit::{Violation, ViolationType};

// What run n violates.
pub fn violation_line(out: &mut [u8], at: usize, n: u64, violation: Violation) -> usize
    requires { at + 170 ≤ length out.old }
    ensures text { Put at (Text.violation_line n (violation_in violation)) out.old out.new result }
    ensures short { result ≤ at + 150 }
{
    let kind = violation.kind;
    match kind {
        ViolationType::TimeWindowViolated {
            customer_id,
            arrival,
            due,
        } => filled(
            &mut *out,
            at,
            b"run % customer %: window shut at %, ready at %\n",
            &[n, customer_id as u64, whole_part(due), whole_part(arrival)],
        ),
        ViolationType::BreakNotPlaceable => filled(
            &mut *out,
            at,
            b"run % without its break\n",
            &[n],
        ),
        ViolationType::CapacityExceeded { load, capacity } => filled(
            &mut *out,
            at,
            b"run % overloaded: % of % seats\n",
            &[n, load, capacity as u64],
        ),
        ViolationType::MaxDistanceExceeded {
            distance,
            max_distance,
        } => filled(
            &mut *out,
            at,
            b"run % too far: % of %\n",
            &[n, whole_part(distance), whole_part(max_distance)],
        ),
        ViolationType::MaxDurationExceeded {
            duration,
            max_duration,
        } => filled(
            &mut *out,
            at,
            b"run % too long: % of %\n",
            &[n, whole_part(duration), whole_part(max_duration)],
        ),
        ViolationType::WheelchairsExceeded { load, capacity } => filled(
            &mut *out,
            at,
            b"run % overloaded: % of % wheelchair places\n",
            &[n, load, capacity as u64],
        ),
        ViolationType::ClosedLeg { leg } => filled(
            &mut *out,
            at,
            b"run % leg %: no road\n",
            &[n, leg as u64],
        ),
    }
}
