// The calls that a program in C or Rust links. Each name has the library's major version in it, so that a program which
// was compiled for another one does not link; library/lizsomdur.h gives them the plain names, lizsomdur_plan and so on.
#![tactic(auto)]

pub mod improve;
pub mod mark;
pub mod plan;
pub mod run_visits;
