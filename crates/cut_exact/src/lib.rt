// On a sheet within the limits the cut on floats is that of crates/definitions: see specs/. No functions.
#![tactic(auto)]
