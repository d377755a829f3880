//! What is asserted, and what is found.
use grind_term_graph::NodeId;

/// An equation that was asserted between two nodes of different classes.
#[derive(Clone, Copy, Debug, PartialEq, Eq)]
pub struct Edge {
    /// The node on its left.
    pub left: NodeId,
    /// The node on its right.
    pub right: NodeId,
    /// The number of the fact that says so.
    pub why: u32,
}

/// Two congruent nodes of different classes.
#[derive(Clone, Copy, Debug, PartialEq, Eq)]
pub struct Found {
    /// One of the nodes.
    pub left: NodeId,
    /// The other node.
    pub right: NodeId,
}
