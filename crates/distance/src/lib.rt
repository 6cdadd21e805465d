// Legs between places.
#![tactic(auto)]

pub mod leg;
pub mod matrix;
