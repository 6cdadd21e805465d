// The numbers of a sheet looked at one by one: out of range, ready above due, and soft windows.
// Behind refusals 1, 2, 4, 22 and 23.
#![tactic(auto)]

pub mod calls;
pub mod closures;
pub mod customers;
pub mod numbers;
pub mod records;
pub mod tables;
