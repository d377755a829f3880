//! The units, one file each but for the congruent nodes, which the closure finds by itself.
pub mod clashes;
pub mod numbers;
pub mod truths;
