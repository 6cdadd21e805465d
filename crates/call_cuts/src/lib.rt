// The calls on a tour, on an array of records: its cutting, and the mark of a cutting that is given.
// Refused by number with nothing written, or the answer.
#![tactic(auto)]

pub mod cutting;
pub mod marking;
pub mod stored;
