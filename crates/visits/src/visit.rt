// A visit of a run, and a violation with its figures (models/route.rs, models/solution.rs).
use models::domain::MOST_CALLS;
use models::load::Load;

// Most violations of a run: one for each call, and four besides.
pub const MOST_VIOLATIONS: usize = MOST_CALLS + 4;

// The load is that after the call.
#[derive(Clone, Copy)]
pub struct Visit {
    pub customer_id: usize,
    pub arrival_time: f64,
    pub departure_time: f64,
    pub load_after: Load,
}

// The arrival at a window that is violated is the readiness: after the break, where that is here.
#[derive(Clone, Copy)]
pub enum ViolationType {
    TimeWindowViolated {
        customer_id: usize,
        arrival: f64,
        due: f64,
    },
    BreakNotPlaceable,
    CapacityExceeded {
        load: u64,
        capacity: u32,
    },
    MaxDistanceExceeded {
        distance: f64,
        max_distance: f64,
    },
    MaxDurationExceeded {
        duration: f64,
        max_duration: f64,
    },
    // The second load.
    WheelchairsExceeded {
        load: u64,
        capacity: u32,
    },
    // The first leg of the run without a road; leg 1 leaves the depot.
    ClosedLeg {
        leg: usize,
    },
}

#[derive(Clone, Copy)]
pub struct Violation {
    pub kind: ViolationType,
}
