//! What proofs are made of: claims, rules, lines and branches; and which claims are well formed.
#![tactic(auto)]

pub mod claim;
mod copies;
pub mod laws;
pub mod premises;
pub mod proof;

pub use claim::Claim;
pub use proof::{Branch, Line, Proof, Rule};
