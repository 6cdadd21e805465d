// A cutting as text, in the listing's own form, read from bytes.
#![tactic(auto)]

pub mod mode;
pub mod read;
