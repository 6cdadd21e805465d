#![tactic(auto)]

// What `encode` writes of a sheet and its tour is read back, and only that is accepted: see proofs/. No functions.
