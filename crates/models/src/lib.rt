// Customers and vehicles: windows, loads, breaks and limits, counts, the head of a sheet, and the range of its numbers.
#![tactic(auto)]

pub mod byte;
pub mod count;
pub mod customer;
pub mod domain;
pub mod head;
pub mod limits;
pub mod load;
pub mod placement;
pub mod vehicle;
