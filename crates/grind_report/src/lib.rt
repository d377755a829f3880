//! Reports: what they say, and the printer of a block.
#![tactic(auto)]

pub mod report;
