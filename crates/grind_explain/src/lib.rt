//! Equalities of a closure under congruence, explained: what edges join is derived by typed lines of a proof.
#![tactic(auto)]

mod chain;
pub mod explanation;
mod known;

pub use explanation::explain;
