// The timeline of a run whose break is at a given place.
#![tactic(auto)]

pub mod begins;
pub mod rest;
pub mod timeline;
