// The calls that a cut holds while calls drop, with the table of their rows.
#![tactic(auto)]

pub mod hold;
pub mod refill;
