// The break clock: a call served, labels before and after the break, and the end of a run; the better of two ends.
#![tactic(auto)]

pub mod least;
pub mod schedule;
