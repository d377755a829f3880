//! What a match is.
use grind_outside::List;
use grind_term_graph::NodeId;

/// A match of a theorem: nodes for its variables that make one of its pattern lists equal to active nodes, up to class.
#[derive(Drop, Debug)]
pub struct Match {
    /// The number of the theorem.
    pub theorem: u32,
    /// A node for each variable, in order.
    pub subst: List<NodeId>,
    /// The greatest generation of the nodes that the patterns use.
    pub generation: u32,
}
