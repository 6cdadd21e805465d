// What the improvers of runs stand on: the least gain that counts, what they are told of a sheet, its records as
// numbers, the distance of a run, a leg, and a run whose first calls are fixed.
#![tactic(auto)]

pub mod gain;
pub mod leg;
pub mod prefix;
pub mod records;
pub mod route;
pub mod search;
pub mod step;
