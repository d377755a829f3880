//! Equations and connectives among the terms.
ghost use Rattle.std.specs.Prelude.{◌≡◌, ◌<◌, ◌↔◌, ℕ, [], ◌∷◌, length, Some, IfSome, IsNone, IsTrue};
ghost use Rattle.grind_term_graph.specs.Terms.{prop, sort_at};
ghost use Rattle.grind_truth_prop.specs.Kernel.{IsEquation};
ghost use Rattle.grind_truth_prop.specs.Findings.{IsConnectiveOf, IsNoConnective};
ghost use Rattle.grind_truth_prop.specs.Ways.{JoinsTwo};

use crate::types::Couple;
use grind_term_graph::{Head, NodeId, SortId, TermTable};

/// A connective of two formulas, which a negation has as one and the same.
#[derive(Clone, Copy, Debug)]
pub struct Connective {
    /// The connective.
    pub head: Head,
    /// The first argument.
    pub first: NodeId,
    /// The second argument.
    pub second: NodeId,
}

/// The sides of the equation of that number, if it is one.
pub(crate) fn sides_of(terms: &TermTable, n: NodeId) -> Option<Couple>
    requires { n < length terms.now.nodes }
    ensures found { IfSome result (λ sides. IsEquation terms.now.nodes n sides.left sides.right) }
    ensures none { IsNone result → (a b : ℕ) → ¬ IsEquation terms.now.nodes n a b }
{
    let node = terms.node(n);
    if node.head != Head::Eq {
        return None;
    }
    let [left, right] = node.args.as_slice() else {
        return None;
    };
    Some(Couple {
        left: *left,
        right: *right,
    })
}

/// The connective of that number, if it is one.
pub(crate) fn connective_at(terms: &TermTable, n: NodeId) -> Option<Connective>
    requires { n < length terms.now.nodes }
    ensures found { IfSome result (λ it. IsConnectiveOf terms.now.nodes n it) }
    ensures none { IsNone result → IsNoConnective terms.now.nodes n }
{
    let node = terms.node(n);
    if node.head == Head::Not {
        let Some(only) = one_formula(terms, node.args.as_slice()) else {
            return None;
        };
        return Some(Connective {
            head: Head::Not,
            first: only,
            second: only,
        });
    }
    if !joins_two(node.head) {
        return None;
    }
    let Some(both) = two_formulas(terms, node.args.as_slice()) else {
        return None;
    };
    Some(Connective {
        head: node.head,
        first: both.left,
        second: both.right,
    })
}

/// Whether the head joins the truths of two arguments.
fn joins_two(head: Head) -> bool
    ensures { IsTrue result ↔ JoinsTwo head }
{
    match head {
        Head::And | Head::Or | Head::Implies | Head::Eq => true,
        Head::Not
        | Head::True
        | Head::False
        | Head::Le
        | Head::Int(_)
        | Head::Add
        | Head::Neg
        | Head::Mul
        | Head::Fun(_)
        | Head::Const(_) => false,
    }
}

/// Whether the node is a formula.
fn is_formula(terms: &TermTable, n: NodeId) -> bool
    ensures { IsTrue result ↔ (sort_at terms.now.nodes n ≡ Some prop) }
{
    n.number() < terms.len() && terms.sort(n) == SortId::PROP
}

/// The only argument, where there is one and it is a formula.
fn one_formula(terms: &TermTable, args: &[NodeId]) -> Option<NodeId>
    ensures found { IfSome result (λ a. (args.now ≡ a ∷ []) × (sort_at terms.now.nodes a ≡ Some prop)) }
    ensures none { IsNone result → (a : ℕ) → args.now ≡ a ∷ [] → ¬ (sort_at terms.now.nodes a ≡ Some prop) }
{
    let [only] = args else {
        return None;
    };
    if !is_formula(terms, *only) {
        return None;
    }
    Some(*only)
}

/// The two arguments, where there are two and they are formulas.
fn two_formulas(terms: &TermTable, args: &[NodeId]) -> Option<Couple>
    ensures args { IfSome result (λ it. args.now ≡ it.left ∷ it.right ∷ []) }
    ensures left { IfSome result (λ it. sort_at terms.now.nodes it.left ≡ Some prop) }
    ensures right { IfSome result (λ it. sort_at terms.now.nodes it.right ≡ Some prop) }
    ensures none { IsNone result → (a b : ℕ) → args.now ≡ a ∷ b ∷ []
        → sort_at terms.now.nodes a ≡ Some prop → ¬ (sort_at terms.now.nodes b ≡ Some prop) }
{
    let [left, right] = args else {
        return None;
    };
    if !is_formula(terms, *left) || !is_formula(terms, *right) {
        return None;
    }
    Some(Couple {
        left: *left,
        right: *right,
    })
}
