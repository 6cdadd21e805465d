// What the cuttings share: the table, and the calls held.
#![tactic(auto)]

pub mod cells;
pub mod held;
