// What the program `mark` prints, line by line, written into a lent buffer: verdicts, refusals and bad texts in words.
#![tactic(auto)]

pub mod bad;
pub mod refusal;
pub mod verdict;
