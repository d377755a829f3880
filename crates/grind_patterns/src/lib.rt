//! The pattern terms of a theorem: which terms of its body an annotation chooses, so that a theorem is instantiated
//! where terms of that form stand.
#![tactic(auto)]

pub mod body;
pub mod copies;
pub mod kind;
pub mod patterns;
pub mod terms;
mod walk;

pub use kind::Kind;
pub use patterns::patterns_of;
