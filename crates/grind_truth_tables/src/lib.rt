//! The rule `table`: what the truth tables of the connectives let follow from the claims of its premises.
#![tactic(auto)]

pub mod laws;
mod needed;
pub mod table;
mod truths;

pub use table::is_table;
