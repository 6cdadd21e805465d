// The mark on the sheet that bytes are, and the verdict by number and values.
#![tactic(auto)]

pub mod mark;
pub mod values;
