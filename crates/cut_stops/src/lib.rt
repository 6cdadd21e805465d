// What the cut reads of each place and leg, worked out once.
#![tactic(auto)]

pub mod between;
pub mod stops;
