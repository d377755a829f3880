//! The assignment of whole numbers to atoms, from the greatest atom down: each takes the number nearest to 0 between its
//! bounds at the values of the greater atoms. Where there is none, the answer says why.
#![tactic(auto)]

pub mod assignment;
mod atoms;
mod differences;
pub mod laws;
pub mod outcome;
mod readings;
mod walk;

pub use assignment::assign;
pub use outcome::{Chosen, Outcome};
