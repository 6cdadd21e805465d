// The lists that a call is lent: their lengths, run ends and break places, by the kind of call, and a customer twice
// in a tour. Behind refusals 13, 14, 21 and 5.
#![tactic(auto)]

pub mod called;
pub mod first;
pub mod kind;
pub mod lengths;
pub mod runs;
