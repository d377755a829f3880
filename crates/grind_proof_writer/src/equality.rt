//! Equalities that lines tell.
use grind_term_graph::NodeId;

/// The equality of two nodes, and a line that tells it.
#[derive(Clone, Copy, Drop)]
pub struct Equality {
    /// The number of the line.
    pub line: u32,
    /// The node on its left.
    pub left: NodeId,
    /// The node on its right.
    pub right: NodeId,
}
