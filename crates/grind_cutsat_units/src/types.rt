//! What a case is made of, and what is answered.
use grind_claims::{Claim, Rule};
use grind_classes::Classes;
use grind_cutsat_facts::Facts;
use grind_outside::List;
use grind_term_graph::TermTable;

/// What a unit looks at.
#[derive(Drop)]
pub struct View<'a> {
    /// The facts.
    pub facts: &'a Facts,
    /// The terms.
    pub terms: &'a TermTable,
    /// The classes of the active nodes.
    pub classes: &'a Classes,
    /// The number of the next post.
    pub next: u32,
}

/// A post of a case: what it claims, by which rule, from which claims.
#[derive(Drop, Debug, PartialEq, Eq)]
pub struct Planned {
    /// What it claims.
    pub claim: Claim,
    /// By which rule.
    pub rule: Rule,
    /// From which claims.
    pub premises: List<Claim>,
}

/// A post that follows: its claim, the rule, and the posts that it follows from.
#[derive(Drop, Debug, PartialEq, Eq)]
pub struct Draft {
    /// What it claims.
    pub claim: Claim,
    /// By which rule.
    pub rule: Rule,
    /// The numbers of the posts that it follows from. A draft before it has the number that it will get.
    pub from: List<u32>,
}
