//! What a closure was at a mark.
use crate::application::Application;
use crate::edge::Edge;
use grind_outside::List;
use grind_term_graph::{Node, NodeId};

/// What `undo` gives back of a closure.
pub struct ClosureView {
    /// The member lists, by root.
    pub lists: List<List<NodeId>>,
    /// The equations, in the order in which they came.
    pub edges: List<Edge>,
    /// The congruence table: keys of a head, a sort and the roots of arguments, each with a node, in the
    /// order in which they were entered.
    pub table: List<(Node, NodeId)>,
    /// The active nodes with arguments, in the order in which they became active.
    pub applications: List<Application>,
}

// What a mark notes: how much there was of each list that only grows, and how much of the work was done.
#[derive(Clone, Copy, Debug)]
pub(crate) struct Noted {
    pub(crate) edges: u32,
    pub(crate) keys: usize,
    pub(crate) applications: u32,
    pub(crate) work: u32,
    pub(crate) cursor: u32,
}
