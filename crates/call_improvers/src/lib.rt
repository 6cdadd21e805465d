// The improvers on an array of records: refused by number with nothing written, or the answer.
#![tactic(auto)]

pub mod eliminating;
pub mod reversing;
