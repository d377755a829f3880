//! What agents know by the posts of a journal: the formulas that hold and that fail, and the nodes that are equal and
//! different, two by two. It is kept as posts are made, and what is kept is exactly what the posts say.
#![tactic(auto)]

pub mod knowing;
pub mod laws;

pub use knowing::{learn, nothing_known};
