// A row of the table by loads and closed legs alone.
#![tactic(auto)]

pub mod load_row;
