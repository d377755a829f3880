//! Different numbers in one class.
ghost use Rattle.std.specs.Prelude.{ℤ, Contains, IfSome, IsNone, IsTrue, ◌↔◌, ℕ};
ghost use Rattle.grind_term_rules.specs.TermRules.{IsNumber};
ghost use Rattle.grind_rules.specs.Rules.{AreTwoNumbers};
ghost use Rattle.grind_truth_prop.specs.Given.{Fits};
ghost use Rattle.grind_closure_steps.specs.Clashes.{AreNumbersTogether, IsAlone, NoNumbers};

use grind_classes::Classes;
use grind_term_graph::{Head, NodeId, TermTable};
use grind_truth_prop::{Couple, Known};

/// The number that the node is, if it is one.
fn number_at(terms: &TermTable, n: NodeId) -> Option<i128>
    ensures some { IfSome result (λ number. IsNumber terms.now.nodes n number) }
    ensures none { IsNone result → (number : ℤ) → ¬ IsNumber terms.now.nodes n number }
{
    if n.number() >= terms.len() {
        return None;
    }
    match terms.node(n).head {
        Head::Int(number) => Some(number),
        _ => None,
    }
}

/// Whether the two are different numbers.
fn are_two_numbers(terms: &TermTable, a: NodeId, b: NodeId) -> bool
    ensures { IsTrue result ↔ AreTwoNumbers terms.now.nodes a b }
{
    let Some(one) = number_at(terms, a) else {
        return false;
    };
    let Some(other) = number_at(terms, b) else {
        return false;
    };
    one != other
}

/// The first of the nodes that is another number than this one.
fn other_number(terms: &TermTable, one: NodeId, nodes: &[NodeId]) -> Option<NodeId>
    ensures within { IfSome result (λ other. Contains nodes.now other) }
    ensures other { IfSome result (λ other. AreTwoNumbers terms.now.nodes one other) }
    ensures none { IsNone result → (n : ℕ) → Contains nodes.now n → ¬ AreTwoNumbers terms.now.nodes one n }
{
    let mut rest = nodes;
    while let Some((node, tail)) = rest.split_first() {
        if are_two_numbers(terms, one, *node) {
            return Some(*node);
        }
        rest = tail;
    }
    None
}

/// A number in the class of the node, which is another, if there is one.
fn partner(known: &Known, classes: &Classes, n: NodeId) -> Option<NodeId>
    ensures found { IfSome result (λ other. AreNumbersTogether known.now.terms.nodes classes.now.lists n other) }
    ensures none { IsNone result → IsAlone known.now.terms.nodes classes.now.lists n }
{
    if !classes.is_active(n) {
        return None;
    }
    if number_at(&known.terms, n).is_none() {
        return None;
    }
    let root = classes.root(n);
    other_number(&known.terms, n, classes.members(root))
}

/// The first two different numbers in one class.
pub fn first_numbers(known: &Known, classes: &Classes) -> Option<Couple>
    requires { Fits known.now classes.now.lists }
    ensures found { IfSome result (λ it. AreNumbersTogether known.now.terms.nodes classes.now.lists it.left it.right) }
    ensures none { IsNone result → NoNumbers known.now.terms.nodes classes.now.lists }
{
    for number in 0..known.terms.len() {
        let left = NodeId::new(number);
        if let Some(right) = partner(known, classes, left) {
            return Some(Couple { left, right });
        }
    }
    None
}
