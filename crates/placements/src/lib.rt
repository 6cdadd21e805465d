// The evaluation of a run by either placement of its break.
#![tactic(auto)]

pub mod placed;
