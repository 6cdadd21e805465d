// The rows of the table: without a break, and by what the terms hold a run to.
#![tactic(auto)]

pub mod rows;
