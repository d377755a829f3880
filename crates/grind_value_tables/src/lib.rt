//! What a typed proof means. A table of values gives a whole number to each node; it respects the terms where
//! connectives, equality, order, arithmetic and functions have their meaning. `respects` decides that, `claim_true`
//! reads a claim in such a table, and the laws say that a typed proof makes its goal true in each of them.
#![tactic(auto)]

pub mod claims;
mod evaluation;
mod functions;
mod heads;
mod keeping;
pub mod laws;
pub mod respecting;
pub mod values;

pub use claims::claim_true;
pub use respecting::respects;
pub use values::{Overflow, Values};
