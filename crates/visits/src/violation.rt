// The violations of a run, in their order: windows by visit, the break, capacity in each measure, distance, duration.
ghost use Rattle.std.specs.Prelude.{◌≡◌, ◌&&◌, ◌+◌, ◌<◌, ◌≤◌, eqb, length};
ghost use Rattle.models.specs.Load.{space_of, load_of};
ghost use Rattle.evaluation.specs.Records.{limits_of};
ghost use Rattle.visits.specs.Visiting.{most_violations};
ghost use Rattle.visits.specs.Violations.{Added, Checked, when, over_f, overloads_f};

use crate::visit::{MOST_VIOLATIONS, Violation, ViolationType};
use models::limits::{RouteLimits, limit_or_zero};
use models::load::{Load, Space};

// The first `count` of the list.
#[derive(Clone, Copy)]
pub struct Violations {
    pub list: [Violation; MOST_VIOLATIONS],
    pub count: usize,
}

// Above the limit, if there is one.
pub fn exceeds(limit: Option<f64>, x: f64) -> bool
    ensures { result ≡ over_f limit x }
{
    limit.is_some_and(|max| x > max)
}

// The break is reported only where no window is.
pub fn reported(missing: bool, windows: usize) -> bool
    ensures { result ≡ (missing && eqb windows 0) }
{
    if missing { windows == 0 } else { false }
}

impl Violations {
    // One more, where the test holds.
    pub fn pushed(self, test: bool, violation: Violation) -> Violations
        requires { (length self.list ≡ most_violations) × (self.count < most_violations) }
        ensures { Added self (when test violation) result }
    {
        if !test {
            return self;
        }
        let mut list = self.list;
        let count = self.count;
        list[count] = violation;
        Violations {
            list,
            count: count + 1,
        }
    }

    // Each measure in which a load is over what the vehicle holds: seats, then wheelchair places.
    pub fn loaded(self, load: Load, capacity: Space) -> Violations
        requires { (length self.list ≡ most_violations) × (self.count + 1 < most_violations) }
        ensures { Added self (overloads_f (load_of load) (space_of capacity)) result }
    {
        let seated = self.pushed(
            !load.seated(capacity),
            Violation {
                kind: ViolationType::CapacityExceeded {
                    load: load.seats,
                    capacity: capacity.seats,
                },
            },
        );
        seated.pushed(
            !load.wheeled(capacity),
            Violation {
                kind: ViolationType::WheelchairsExceeded {
                    load: load.wheelchairs,
                    capacity: capacity.wheelchairs,
                },
            },
        )
    }

    // The windows violated, and after them what else the run violates. Inlined, its lists would take stack in a caller
    // that walks a run besides.
    #[inline(never)]
    pub fn checked(
        self,
        missing: bool,
        load: Load,
        capacity: Space,
        limits: RouteLimits,
        distance: f64,
        duration: f64,
    ) -> Violations
        requires { (length self.list ≡ most_violations) × (self.count ≤ 128) }
        ensures { Checked self missing (load_of load) (space_of capacity) (limits_of limits) distance duration result }
    {
        let max_distance = limits.max_distance;
        let max_duration = limits.max_duration;
        let placed = self.pushed(
            reported(missing, self.count),
            Violation {
                kind: ViolationType::BreakNotPlaceable,
            },
        );
        let loaded = placed.loaded(load, capacity);
        let near = loaded.pushed(
            exceeds(max_distance, distance),
            Violation {
                kind: ViolationType::MaxDistanceExceeded {
                    distance,
                    max_distance: limit_or_zero(max_distance),
                },
            },
        );
        near.pushed(
            exceeds(max_duration, duration),
            Violation {
                kind: ViolationType::MaxDurationExceeded {
                    duration,
                    max_duration: limit_or_zero(max_duration),
                },
            },
        )
    }
}
