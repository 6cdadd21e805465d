// On a sheet within the limits elimination on floats is that of crates/definitions: see proofs/. No functions.
