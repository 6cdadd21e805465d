// Whether a run is in time with a call more: by the times at which the calls before it are left, and the bounds before
// which those behind it have to be reached.
#![tactic(auto)]

pub mod backward;
pub mod hours;
pub mod onward;
