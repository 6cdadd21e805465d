#![tactic(auto)]

// On a sheet within the limits every lookup lies inside its table, and every sum stays below 2^53: the bounds are in
// specs/, their theorems in proofs/. No functions.
