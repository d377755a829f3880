//! The command line of Grind: `run` goes from the words and the file to a report that is proved right.
#![tactic(auto)]

pub mod program;
pub mod run;
pub mod solve;
pub mod writing;
