// The public calls: thin functions over lent slices, above the checked calls on arrays.
#![tactic(auto)]

pub mod cutting;
pub mod eliminating;
pub mod evaluating;
pub mod marking;
pub mod reading;
pub mod reversing;
pub mod visiting;
