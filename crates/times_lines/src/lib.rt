// The lines of a run's timeline, written into a lent buffer. Each function gives the place after what it wrote.
#![tactic(auto)]

pub mod run;
pub mod stop;
pub mod violation;
