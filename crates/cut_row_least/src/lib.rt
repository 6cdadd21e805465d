// A row of the table with a break at its best place.
#![tactic(auto)]

pub mod least_row;
