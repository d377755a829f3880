//! The units of work, each in a file of its own: what follows at one node, and the first node at which it does.
pub mod classed;
pub mod connectives;
pub mod equations;
pub mod sides;
pub mod splits;
