//! The facts that a solver of linear integer arithmetic has taken: claims, each with the number of the post that says it.
//! Which claims stand among them, and which bounds are covered by one that is as strict.
#![tactic(auto)]

pub mod claims;
pub mod covering;
pub mod facts;

pub use claims::is_same_claim;
pub use facts::{Fact, Facts};
