// The labels of a run, one for each of its break places, in lists of numbers.
#![tactic(auto)]

pub mod labels;
