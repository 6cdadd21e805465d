// The refusals of every call but the reader's, and their order.
#![tactic(auto)]

pub mod by_call;
pub mod order;
pub mod sheet;
