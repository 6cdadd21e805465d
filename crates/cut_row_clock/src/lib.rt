// A row of the table with a break where the clock puts it.
#![tactic(auto)]

pub mod rest_row;
