// The plan of a sheet: its tour cut into runs, and the breaks of the runs.
#![tactic(auto)]

pub mod breaks;
pub mod cut;
pub mod plan;
pub mod stored;
