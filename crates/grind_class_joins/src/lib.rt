//! Merges of the classes of many pairs of nodes, one pair after the other, and how many nodes they move in all.
#![tactic(auto)]

pub mod joins;

pub use joins::{Pair, merge_all};
