// What kind of call a sheet goes to.

// The result lists that a call writes, which say how long each has to be.
#[derive(Clone, Copy)]
pub enum Results {
    Nothing,
    // Served customers, run ends and dropped positions, each as long as the tour.
    Cut,
    // Visits as many as the calls, and violations four more.
    Visits,
    // Calls, as many as are lent.
    Run,
    // Calls and run ends, of each as many as are lent.
    RunList,
}

// What the refusals ask of a call.
#[derive(Clone, Copy)]
pub struct Kind {
    // Its calls are a run list.
    pub takes_ends: bool,
    // It takes a break place for each run.
    pub marks: bool,
    // It is an improver.
    pub improves: bool,
    pub results: Results,
}
