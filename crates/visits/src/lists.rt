// Lent lists of visits and of violations: the first records of an array written at the front.
ghost use Rattle.std.specs.Prelude.{◌≡◌, min, length, take};
ghost use Rattle.definitions.specs.Room.{written};

use crate::visit::{MOST_VIOLATIONS, Violation, Visit};
use lending::fitting;

// The first n visits written at the front, as far as there is room; the rest stays.
pub fn scattered_visits(records: [Visit; 128], n: usize, visits: &mut [Visit])
    ensures { let lent = visits.old in
        visits.new ≡ written (take (min n (length lent)) records) lent }
{
    let m = fitting(n, 128, visits.len());
    visits[..m].copy_from_slice(&records[..m]);
}

// The same of violations.
pub fn scattered_violations(
    records: [Violation; MOST_VIOLATIONS],
    n: usize,
    violations: &mut [Violation],
)
    ensures { let lent = violations.old in
        violations.new ≡ written (take (min n (length lent)) records) lent }
{
    let m = fitting(n, MOST_VIOLATIONS, violations.len());
    violations[..m].copy_from_slice(&records[..m]);
}
