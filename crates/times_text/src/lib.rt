// What the program `timetable` prints for the bytes of a sheet and of a cutting.
#![tactic(auto)]

pub mod runs;
pub mod text;
