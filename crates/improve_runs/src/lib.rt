// What route elimination works on: run lists in lent lists, and the first of the least of some numbers.
#![tactic(auto)]

pub mod picking;
pub mod runs;
