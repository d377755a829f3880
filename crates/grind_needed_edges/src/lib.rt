//! Which edges of a closure under congruence the equality of two nodes needs: those on the first way between them, and where
//! such an edge is a congruence, those on the first way between each pair of arguments.
#![tactic(auto)]

pub mod pairs;
pub mod plan;
pub mod why;

pub use pairs::{Pair, Pairs};
pub use plan::{Plan, Planner, is_needed};
pub use why::Why;
