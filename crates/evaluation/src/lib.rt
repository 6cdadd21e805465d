// What a run comes to: its load, the clock of a run with a break, the way of one without, the evaluations of a run, and
// whether they have to be asked.
#![tactic(auto)]

pub mod checks;
pub mod load;
pub mod route;
pub mod schedule;
pub mod way;
