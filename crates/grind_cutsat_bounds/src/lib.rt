//! The bounds of an atom at values of the greater atoms, and the whole number nearest to 0 between them.
#![tactic(auto)]

pub mod choice;
pub mod evaluation;
mod limits;
mod numbers;

pub use choice::{Choice, choose};
