//! What is given, and what is answered.
use grind_outside::List;
use grind_term_graph::{NodeId, TermTable};

/// Two nodes, in this order.
#[derive(Clone, Copy, Debug, PartialEq, Eq, Hash)]
pub struct Couple {
    /// The first node.
    pub left: NodeId,
    /// The second node.
    pub right: NodeId,
}

/// What is known besides the classes.
#[derive(Drop, Debug)]
pub struct Known {
    /// The terms that everything speaks of.
    pub terms: TermTable,
    /// For each node, whether it is known to hold.
    pub holds: List<bool>,
    /// For each node, whether it is known to fail.
    pub fails: List<bool>,
    /// The nodes that are claimed to be equal, two by two.
    pub same: List<Couple>,
    /// The nodes that are claimed to be different, two by two.
    pub apart: List<Couple>,
}

/// The next consequence, or the formula whose truth is to be tried, or rest.
#[derive(Drop, Debug, PartialEq, Eq)]
pub enum TruthStep {
    /// An unknown formula is in the class of `True` or `False`.
    Classed {
        /// The formula.
        node: NodeId,
        /// Whether it is in the class of `True`.
        value: bool,
    },
    /// An equation is known, and what follows for its sides is not.
    Sides {
        /// The equation.
        node: NodeId,
    },
    /// An unknown equation has its sides in one class.
    Joined {
        /// The equation.
        node: NodeId,
    },
    /// An unknown equation has its sides in the classes of two nodes that are different.
    Parted {
        /// The equation.
        node: NodeId,
        /// The place of these two in the list of different nodes.
        apart: u32,
    },
    /// A truth table leaves an unknown formula one truth.
    Settle {
        /// The formula: a connective, or one of its arguments.
        node: NodeId,
        /// Its truth.
        value: bool,
        /// The arguments of the connective, each once.
        atoms: List<NodeId>,
    },
    /// The truth table of a connective leaves nothing possible.
    Conflict {
        /// The connective.
        node: NodeId,
    },
    /// Nothing follows, and the truth of this formula is to be tried.
    Wants(NodeId),
    /// Nothing follows, and nothing is to be tried.
    Rest,
}
