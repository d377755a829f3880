//! What is answered.
use grind_outside::List;
use grind_term_graph::NodeId;

/// An atom, and the value that is chosen for it.
#[derive(Clone, Copy, Debug, PartialEq, Eq)]
pub struct Chosen {
    /// The atom.
    pub node: NodeId,
    /// Its value.
    pub value: i128,
}

/// The assignment, or why there is none.
#[derive(Drop, Debug, PartialEq, Eq)]
pub enum Outcome {
    /// The atoms in the order of their numbers, each with its value.
    Assigned(List<Chosen>),
    /// The bounds of an atom enclose no whole number at the values of the greater atoms.
    Gap {
        /// The atom.
        node: NodeId,
        /// Its least upper bound, rounded down.
        floor: i128,
    },
    /// This post does not fit in 128 bits when it is evaluated: a bound at the values of the greater atoms, or a difference
    /// at the values of all.
    Unfit(u32),
    /// This post says that two terms differ, and the values make them equal.
    Equal(u32),
}
