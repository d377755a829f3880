//! Classes of nodes that are known to be equal: each has a root, which is its first member, and two
//! classes are joined by appending the smaller to the larger. The root of a node is answered in one step,
//! and what a call changed is kept on a trail, by which the classes go back to a mark.
#![tactic(auto)]

mod change;
pub mod classes;
mod lists;
mod partition;
mod roots;
mod trail;

pub use classes::{Classes, Merged};
