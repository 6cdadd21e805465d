// The runs along a stretch of calls: what every run is held to, the way leg by leg, and a call that is reached.
#![tactic(auto)]

pub mod terms;
pub mod visit;
pub mod way;
