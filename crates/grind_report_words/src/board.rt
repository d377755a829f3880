//! Boards as a report gives them.
use crate::term::RawTerm;
use grind_claims::{Claim, Rule};
use grind_linear_forms::Form;
use grind_outside::List;
use grind_term_graph::NodeId;

/// What a post follows from.
#[derive(Clone, Copy)]
pub enum Premise {
    /// The post of that number.
    Post(u32),
    /// The two terms are in one class by earlier posts.
    Pair(NodeId, NodeId),
}

/// A post: a claim, and how it follows.
#[derive(Drop)]
pub struct Post {
    /// How many decisions were in force.
    pub depth: u32,
    /// The rule by which it follows.
    pub rule: Rule,
    /// What it follows from.
    pub premises: List<Premise>,
    /// What it claims.
    pub claim: Claim,
}

/// Why a goal is left open.
#[derive(Clone, Copy)]
pub enum Reason {
    /// The limit of instances was reached.
    Instances,
    /// A number does not fit in 128 bits.
    Coefficient,
    /// The limit of cuts was reached.
    Cuts,
    /// The limit of pairs was reached.
    Pairs,
    /// The limit of splits was reached.
    Splits,
    /// The limit of generations was reached.
    Generation,
    /// Nothing is left to be done.
    Saturated,
}

/// What shows the reason.
#[derive(Drop)]
pub enum Evidence {
    /// Nothing is asked for.
    Nothing,
    /// An instance of a theorem that was not made.
    Instance {
        /// The number of the theorem, from 0.
        theorem: u32,
        /// The terms that stand for its variables.
        subst: List<NodeId>,
    },
    /// A term.
    Node(NodeId),
    /// The post of that number.
    Post(u32),
    /// The posts of these two numbers.
    Pair(u32, u32),
    /// A linear form between two bounds of which no whole number lies.
    Gap(Form),
}

/// An instance of a theorem that was made.
#[derive(Drop)]
pub struct Entry {
    /// The number of the theorem, from 0.
    pub theorem: u32,
    /// The terms that stand for its variables.
    pub subst: List<NodeId>,
}

/// The value of a term.
#[derive(Clone, Copy)]
pub struct Value {
    /// The term.
    pub node: NodeId,
    /// Its value.
    pub value: i128,
}

/// A board as a report gives it: its terms are named, and none of it was judged.
#[derive(Drop)]
pub struct RawBoard {
    /// The terms, numbered from 0.
    pub terms: List<RawTerm>,
    /// The generation of each term, None where it is not active.
    pub generations: List<Option<u32>>,
    /// The classes, each with its root first.
    pub classes: List<List<NodeId>>,
    /// The posts, numbered from 0.
    pub posts: List<Post>,
    /// How many posts each of the five agents has read.
    pub cursors: List<u32>,
    /// The posts that are the basis of the ring solver.
    pub basis: List<u32>,
    /// The values of terms, None where there is no assignment.
    pub values: Option<List<Value>>,
    /// The instances, in order.
    pub ledger: List<Entry>,
    /// What shows the reason.
    pub evidence: Evidence,
}
