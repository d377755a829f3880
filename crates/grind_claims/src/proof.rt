//! Proofs: their lines and their branches.
use crate::claim::Claim;
use grind_outside::List;
use grind_polynomials::Poly;
use grind_term_graph::{NodeId, TermTable};

/// How a line follows from its premises.
#[derive(Drop, Debug, PartialEq, Eq)]
pub enum Rule {
    /// A hypothesis of the goal holds. They are counted from 1.
    Hyp(u32),
    /// The conclusion of the goal fails, which a proof by contradiction assumes.
    Negated,
    /// What a theorem says of these nodes.
    Inst {
        /// The number of the theorem, from 0.
        theorem: u32,
        /// The nodes that stand for its variables.
        subst: List<NodeId>,
    },
    /// The literal of the line's branch.
    Branch,
    /// A term equals itself.
    Refl,
    /// Symmetry: from a = b follows b = a.
    Sym,
    /// Transitivity: from a = b and b = c follows a = c.
    Trans,
    /// Equal arguments of one head give equal terms.
    Cong,
    /// An equation that holds or fails makes its sides equal or different.
    Eq,
    /// Two terms that are equal or different make their equation hold or fail.
    Back,
    /// A formula that holds or fails equals `True` or `False`.
    Truth,
    /// A formula that equals `True` or `False` holds or fails.
    Untruth,
    /// What the truth tables of the connectives give, from these free nodes.
    Table(List<NodeId>),
    /// A comparison that holds, or fails, bounds the difference of its sides.
    Read,
    /// A bound makes a comparison hold, or fail.
    Write,
    /// Two whole numbers that are equal have a difference that is at most 0.
    Line,
    /// The polynomial of the difference of two whole numbers that are equal is 0.
    Poly,
    /// Bounds, each so often, added and then divided.
    Combine {
        /// By what the sum is divided.
        divisor: i128,
        /// How often each premise is taken.
        factors: List<i128>,
    },
    /// Two whole numbers are equal where neither is over the other.
    Pinch,
    /// Two whole numbers that are different keep a distance.
    Strict,
    /// Terms that something keeps apart are different.
    Apart,
    /// Polynomials that are 0, each times a factor, added and then divided.
    Ideal {
        /// By what the sum is divided.
        divisor: i128,
        /// The factor of each premise.
        factors: List<Poly>,
    },
    /// Two whole numbers are equal where the polynomial of their difference is 0.
    Equal,
    /// Claims that contradict each other.
    Clash,
}

/// A line of a proof.
#[derive(Drop, Debug, PartialEq, Eq)]
pub struct Line {
    /// The number of its branch. 0 is the root.
    pub branch: u32,
    /// How it follows.
    pub rule: Rule,
    /// The numbers of the lines that it follows from, counted from 0.
    pub premises: List<u32>,
    /// What it claims.
    pub claim: Claim,
}

/// A branch of a proof other than the root: what it assumes besides its parent.
#[derive(Drop, Debug, PartialEq, Eq)]
pub struct Branch {
    /// The number of the branch that it goes on from.
    pub parent: u32,
    /// The number of the first line that may stand in it.
    pub after: u32,
    /// What it assumes.
    pub literal: Claim,
}

/// A proof: its terms, its branches and its lines in order.
#[derive(Drop)]
pub struct Proof {
    /// The terms that the claims speak of. They begin with those of the goal.
    pub terms: TermTable,
    /// The branches other than the root, numbered from 1. They come in pairs, an odd number and the next one.
    pub branches: List<Branch>,
    /// The lines, numbered from 0.
    pub lines: List<Line>,
}
