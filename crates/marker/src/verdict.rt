// What the marker says of a cutting.

// A fault carries its run, from 1, and the value and limit that clash; a window or break fault also the call's place in
// the run, from 1, and its customer, and a closed leg its number in the run alone: leg 1 leaves the depot.
#[derive(Clone, Copy)]
pub enum Verdict {
    // The joined calls differ from the planner's served customers, first at this position, from 1.
    OtherCalls {
        position: usize,
    },
    Overload {
        run: usize,
        load: u64,
        capacity: u32,
    },
    BreakTooLate {
        run: usize,
        place: usize,
        customer: usize,
        start: f64,
        latest: f64,
    },
    WindowMissed {
        run: usize,
        place: usize,
        customer: usize,
        readiness: f64,
        due: f64,
    },
    BreakMissing {
        run: usize,
        duration: f64,
        earliest: f64,
    },
    TooFar {
        run: usize,
        distance: f64,
        limit: f64,
    },
    TooLong {
        run: usize,
        duration: f64,
        limit: f64,
    },
    Best,
    Dearer {
        by: f64,
    },
    Cheaper {
        by: f64,
    },
    // The second load.
    WheelchairOverload {
        run: usize,
        load: u64,
        capacity: u32,
    },
    // The first leg of the run without a road.
    RoadClosed {
        run: usize,
        leg: usize,
    },
}
