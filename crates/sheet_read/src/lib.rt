// The sheet that accepted words say, and the reading of one.
#![tactic(auto)]

pub mod customers;
pub mod head;
pub mod read;
pub mod values;
