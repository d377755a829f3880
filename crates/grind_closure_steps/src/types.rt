//! What is answered.
use grind_term_graph::NodeId;

/// What follows next, or rest.
#[derive(Clone, Copy, Debug, PartialEq, Eq)]
pub enum ClosureStep {
    /// A formula is known, and is not in the class of `True` or `False`.
    Truth {
        /// The formula.
        node: NodeId,
        /// Whether it is known to hold.
        value: bool,
    },
    /// Two nodes are congruent, and not in one class.
    Congruent {
        /// The one node.
        left: NodeId,
        /// The other node.
        right: NodeId,
    },
    /// `True` and `False` are in one class.
    BothTruths,
    /// Two different numbers are in one class.
    Numbers {
        /// The one number.
        left: NodeId,
        /// The other number.
        right: NodeId,
    },
    /// Two nodes that are different are in one class.
    Apart {
        /// The place of these two in the list of different nodes.
        place: u32,
    },
    /// A formula is known to hold and to fail.
    Opposed {
        /// The formula.
        node: NodeId,
    },
    /// Nothing follows.
    Rest,
}
