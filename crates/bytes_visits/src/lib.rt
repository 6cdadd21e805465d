// The timeline of a run on the sheet that bytes are, in rows of numbers.
#![tactic(auto)]

pub mod figures;
pub mod rows;
pub mod run;
pub mod sheet;
pub mod told;
