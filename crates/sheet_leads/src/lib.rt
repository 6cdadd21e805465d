// The parts of a sheet's text that its words show.
#![tactic(auto)]

pub mod leads;
