// The cut of a giant tour into runs by all that a run may be held to.
#![tactic(auto)]

pub mod answer;
pub mod split_tw;
