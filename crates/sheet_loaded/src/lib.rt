// An accepted sheet in memory.
#![tactic(auto)]

pub mod load;
