// The calls on one run, on an array of records: refused by number with nothing written, or the answer.
#![tactic(auto)]

pub mod evaluating;
pub mod visiting;
