// The text of the listing, written into a lent buffer.
#![tactic(auto)]

pub mod lines;
pub mod number;
pub mod plan;
pub mod text;
