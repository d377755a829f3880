//! Which lines and which proofs are typed. The checker answers exactly by the rules: it takes each typed line and refuses
//! each other one, and names the first.
#![tactic(auto)]

pub mod branches;
pub mod checker;
pub mod laws;
mod layout;
pub mod literals;
mod pairs;
mod spans;

pub use checker::{Verdict, check, check_line, derive};
pub use grind_claims::{Branch, Claim, Line, Proof, Rule, claim};
