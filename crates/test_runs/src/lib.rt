// Recorded answers on runs: whether they are what is made of the runs.
// Proved is, number by number, which place of a recorded text each function gives: that after the words which specs/
// say, where these stand one behind the other, and else one beyond every text.
#![tactic(auto)]

pub mod evaluations;
pub mod lines;
pub mod recorded;
pub mod runs;
