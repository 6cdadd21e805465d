// The reader, all but its records: refused by number and word with nothing written, or the answer.
#![tactic(auto)]

pub mod reading;
