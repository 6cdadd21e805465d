#![tactic(auto)]

// What the programs read and print, beside the listing: see specs/. No functions.
