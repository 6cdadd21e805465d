#![tactic(auto)]

// A call on a sheet that was read into memory answers what it answers on the sheet of whole numbers:
// see specs/ and proofs/. No functions.
