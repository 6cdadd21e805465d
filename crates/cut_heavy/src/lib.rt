// The calls too heavy alone, which leave before the first row is filled.
#![tactic(auto)]

pub mod heavy;
