// What the test programs share: their sheets, and lists of small numbers.
#![tactic(auto)]

pub mod changes;
pub mod digits;
pub mod full;
pub mod sheets;
