// What the listing program prints for any bytes, as a function on lent memory.
#![tactic(auto)]

pub mod text;
