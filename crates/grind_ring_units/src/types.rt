//! What a ring solver knows.
use grind_outside::List;
use grind_ring_basis::{Basis, Fact, Places};
use grind_term_graph::NodeId;

/// A post that says that two whole numbers are equal.
#[derive(Clone, Copy)]
pub struct Equality {
    /// The number of the post.
    pub post: u32,
    /// The first of them.
    pub left: NodeId,
    /// The second of them.
    pub right: NodeId,
}

/// What a ring solver knows.
#[derive(Drop)]
pub struct State {
    /// How many elements that are normal forms may join the basis.
    pub limit: u32,
    /// How many did.
    pub made: u32,
    /// The equalities that were taken.
    pub equalities: List<Equality>,
    /// The polynomials that were taken; each was made of an equality by the rule `poly`.
    pub taken: List<Fact>,
    /// The polynomials that the solver knows from its own answers, by the rule `ideal`.
    pub own: List<Fact>,
    /// The basis.
    pub basis: Basis,
}

/// Which pairs of basis elements are to be looked at.
#[derive(Drop)]
pub struct Agenda {
    /// The pairs of so many elements were entered.
    pub rows: u32,
    /// Those of them that are left: each other one has a degree that is too high, or was reduced to 0.
    pub pairs: List<Places>,
}
