//! What a line claims.
ghost use Rattle.std.specs.Prelude.{IsTrue, ◌↔◌, ◌<◌, All, length, IsSome, ◌≡◌, Some};
ghost use Rattle.grind_term_graph.specs.Terms.{prop, int, sort_at};
ghost use Rattle.grind_linear_forms.specs.Naming.{NamesNumbers};
ghost use Rattle.grind_claims.specs.Claims.{MultipliesNumbers, IsFormed};

use grind_linear_forms::Form;
use grind_polynomials::Poly;
use grind_term_graph::{NodeId, SortId, TermTable};

/// A claim about nodes.
#[derive(Drop, Debug, PartialEq, Eq)]
pub enum Claim {
    /// The formula holds.
    Holds(NodeId),
    /// The formula fails.
    Fails(NodeId),
    /// The two terms are equal.
    Same(NodeId, NodeId),
    /// The two terms are different.
    Differ(NodeId, NodeId),
    /// The linear form is at most 0.
    AtMost(Form),
    /// The polynomial is 0.
    Zero(Poly),
    /// A contradiction.
    Absurd,
}

/// Whether a claim is well formed over the terms: its nodes stand there, and their sorts are as the claim asks.
pub fn is_formed(terms: &TermTable, claim: &Claim) -> bool
    ensures { IsTrue result ↔ IsFormed terms.now.nodes claim.now }
{
    match claim {
        Claim::Holds(node) => is_formula(terms, *node),
        Claim::Fails(node) => is_formula(terms, *node),
        Claim::Same(left, right) => are_of_one_sort(terms, *left, *right),
        Claim::Differ(left, right) => are_of_one_sort(terms, *left, *right),
        Claim::AtMost(form) => names_numbers(terms, form),
        Claim::Zero(poly) => multiplies_numbers(terms, poly),
        Claim::Absurd => true,
    }
}

/// Whether the node is a formula.
pub fn is_formula(terms: &TermTable, node: NodeId) -> bool
    ensures { IsTrue result ↔ (sort_at terms.now.nodes node ≡ Some prop) }
{
    node.number() < terms.len() && terms.sort(node) == SortId::PROP
}

/// Whether each node of the form is a whole number.
fn names_numbers(terms: &TermTable, form: &Form) -> bool
    ensures { IsTrue result ↔ NamesNumbers terms.now.nodes form.now }
{
    form.parts().iter().all(|part| is_number(terms, part.node))
}

/// Whether each node of the polynomial is a whole number.
fn multiplies_numbers(terms: &TermTable, poly: &Poly) -> bool
    ensures { IsTrue result ↔ MultipliesNumbers terms.now.nodes poly.now }
{
    poly.terms()
        .iter()
        .all(|term| are_numbers(terms, term.monomial.as_slice()))
}

/// Whether each of the nodes is a whole number.
fn are_numbers(terms: &TermTable, nodes: &[NodeId]) -> bool
    ensures { IsTrue result ↔ All (λ n. sort_at terms.now.nodes n ≡ Some int) nodes.now }
{
    nodes.iter().all(|node| is_number(terms, *node))
}

/// Whether the node is a whole number.
fn is_number(terms: &TermTable, node: NodeId) -> bool
    ensures { IsTrue result ↔ (sort_at terms.now.nodes node ≡ Some int) }
{
    node.number() < terms.len() && terms.sort(node) == SortId::INT
}

/// Whether both nodes stand there, and have one sort.
fn are_of_one_sort(terms: &TermTable, left: NodeId, right: NodeId) -> bool
    ensures { IsTrue result ↔ (IsSome (sort_at terms.now.nodes left)
        × (sort_at terms.now.nodes left ≡ sort_at terms.now.nodes right)) }
{
    let count = terms.len();
    left.number() < count && right.number() < count && terms.sort(left) == terms.sort(right)
}
