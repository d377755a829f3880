//! The lines of a proof that say what a goal gives: a line for each equation that a hypothesis or the denied conclusion gives,
//! and the proof of a goal whose conclusion is a hypothesis.
#![tactic(auto)]

pub mod fact_lines;
pub mod hypothesis;
pub mod reasons;

pub use fact_lines::{clash_line, fact_line};
pub use hypothesis::{by_hypothesis, place_of_conclusion};
pub use reasons::{Written, write_down};
