// The choice of a place for a call in runs that have room for it: where it adds least and is allowed.
#![tactic(auto)]

pub mod chosen;
pub mod insertion;
pub mod loads;
pub mod tested;
