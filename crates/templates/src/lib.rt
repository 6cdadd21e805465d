// Lines made from a template.
#![tactic(auto)]

pub mod fill;
