//! What the solver answers.
use grind_claims::Rule;
use grind_outside::List;
use grind_polynomials::Poly;
use grind_term_graph::NodeId;

/// The next consequence, or what stands in the way of one, or rest.
#[derive(Drop, Debug, PartialEq, Eq)]
pub enum RingStep {
    /// The equality of this post has a polynomial that is 0, and no post says so.
    Zeroed {
        /// The equality.
        post: u32,
    },
    /// The polynomial of this post is its own normal form, and joins the basis.
    Joins(u32),
    /// A normal form that is not 0 joins the basis.
    Added {
        /// The normal form.
        rest: Poly,
        /// The rule by which it is 0.
        rule: Rule,
        /// The posts that it follows from, in rising order.
        from: List<u32>,
    },
    /// Two terms in different classes have the same normal form.
    Equal {
        /// The first term.
        left: NodeId,
        /// The second term.
        right: NodeId,
        /// The polynomial of the first, less that of the second.
        rest: Poly,
        /// The rule `ideal`, by which that polynomial is 0; or the rule `equal`, where a post says so.
        rule: Rule,
        /// The posts that this follows from, in rising order.
        from: List<u32>,
    },
    /// The basis element of this post is a number other than 0.
    Conflict(u32),
    /// Nothing follows.
    Rest,
    /// As many normal forms joined the basis as may, and these posts would give another.
    AtLimit {
        /// The first post.
        first: u32,
        /// The second post; the first again where there is only one.
        second: u32,
    },
    /// A number in what these posts would give does not fit in 128 bits.
    Overflow {
        /// The first post.
        first: u32,
        /// The second post; the first again where there is only one.
        second: u32,
    },
}
