// The marker: a cutting with break places, held against the planner's.
#![tactic(auto)]

pub mod mark;
pub mod run;
pub mod verdict;
pub mod walk;
