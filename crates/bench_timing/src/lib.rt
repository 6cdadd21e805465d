// Calls for benchmarks: each does its work a number of times on a sheet that is read once, so that a program outside
// can take the time of the work alone.
#![tactic(auto)]

pub mod calls;
pub mod every;
pub mod reading;
pub mod work;
