// The visits of a run, its totals, and what it violates.
#![tactic(auto)]

pub mod evaluator;
pub mod lists;
pub mod rest;
pub mod trip;
pub mod violation;
pub mod visit;
