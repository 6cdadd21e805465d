// The cut of a giant tour into runs by loads and closed legs alone.
#![tactic(auto)]

pub mod split;
