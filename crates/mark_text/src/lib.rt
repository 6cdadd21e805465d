// What the program `mark` prints for the bytes of a sheet and of a cutting, written at the front of a lent buffer.
#![tactic(auto)]

pub mod text;
