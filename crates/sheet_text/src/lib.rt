// A sheet as text: its words shown.
#![tactic(auto)]

pub mod file;
pub mod show;
