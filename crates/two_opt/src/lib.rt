// The reversal of stretches of a run (local_search/two_opt.rs).
#![tactic(auto)]

pub mod reverse;
pub mod rules;
pub mod two_opt;
