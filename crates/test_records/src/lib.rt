// Recorded questions and answers of an input, and the count of those that are not as they should be.
#![tactic(auto)]

pub mod closing;
pub mod record;
pub mod seen;
pub mod tally;
