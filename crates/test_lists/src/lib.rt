// Whether a recorded answer on a run list is what is made of it: the lines of its runs, and the cut of the sheet's tour
// by loads and closed legs alone.
// Proved is that an answer is alike exactly where it is, byte by byte, the text of what the planner's functions give.
#![tactic(auto)]

pub mod alike;
pub mod cut;
pub mod given;
