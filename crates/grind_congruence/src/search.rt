//! The search for congruent nodes that are not together.
ghost use Rattle.std.specs.Prelude.{◌≡◌, ℕ, ◌<◌, All, length, IfSome, IsNone, IsTrue, ◌↔◌};
ghost use Rattle.std.specs.List.{AllZip};
ghost use Rattle.grind_classes.specs.Classes.{IsActive, AreTogether, IsPartition};
ghost use Rattle.grind_congruence.specs.Congruence.{AreCongruent, IsAtRest};
ghost use Rattle.grind_congruence.specs.Searching.{AreNodesOf, IsPair, HasNoPartner};

use crate::edge::Found;
use grind_classes::Classes;
use grind_term_graph::{NodeId, TermTable};

// Two active nodes that are congruent and not together, if there are any.
pub(crate) fn find_pair(classes: &Classes, terms: &TermTable) -> Option<Found>
    requires partition { IsPartition classes.now.lists }
    requires fits { AreNodesOf classes.now.lists terms.now.nodes }
    ensures found { IfSome result (λ found. IsPair classes.now.lists terms.now.nodes found.left found.right) }
    ensures none { IsNone result ↔ IsAtRest classes.now.lists terms.now.nodes }
{
    for number in 0..terms.len() {
        let left = NodeId::new(number);
        if let Some(right) = partner(classes, terms, left) {
            return Some(Found { left, right });
        }
    }
    None
}

// An active node that is congruent to a node and not together with it, if there is one.
fn partner(classes: &Classes, terms: &TermTable, a: NodeId) -> Option<NodeId>
    requires fits { AreNodesOf classes.now.lists terms.now.nodes }
    requires within { a < length terms.now.nodes }
    ensures found { IfSome result (λ b. IsPair classes.now.lists terms.now.nodes a b) }
    ensures none { IsNone result → HasNoPartner classes.now.lists terms.now.nodes a }
{
    for number in 0..terms.len() {
        let b = NodeId::new(number);
        if is_pair(classes, terms, a, b) {
            return Some(b);
        }
    }
    None
}

// Whether two nodes are active, congruent and not together.
fn is_pair(classes: &Classes, terms: &TermTable, a: NodeId, b: NodeId) -> bool
    requires fits { AreNodesOf classes.now.lists terms.now.nodes }
    ensures { IsTrue result ↔ IsPair classes.now.lists terms.now.nodes a b }
{
    if !classes.is_active(a) || !classes.is_active(b) {
        return false;
    }
    if classes.same(a, b) {
        return false;
    }
    are_congruent(classes, terms, a, b)
}

// Whether two active nodes are congruent.
fn are_congruent(classes: &Classes, terms: &TermTable, a: NodeId, b: NodeId) -> bool
    requires fits { AreNodesOf classes.now.lists terms.now.nodes }
    requires first { IsActive classes.now.lists a }
    requires second { IsActive classes.now.lists b }
    ensures { IsTrue result ↔ AreCongruent classes.now.lists terms.now.nodes a b }
{
    let left = terms.node(a);
    let right = terms.node(b);
    if left.head != right.head || left.sort != right.sort {
        return false;
    }
    if left.args.as_slice().is_empty() {
        return false;
    }
    are_all_same(classes, left.args.as_slice(), right.args.as_slice())
}

// Whether nodes are together one by one.
fn are_all_same(classes: &Classes, left: &[NodeId], right: &[NodeId]) -> bool
    requires left { All (IsActive classes.now.lists) left.now }
    requires right { All (IsActive classes.now.lists) right.now }
    ensures { IsTrue result ↔ AllZip (AreTogether classes.now.lists) left.now right.now }
{
    let mut rest = left;
    let mut others = right;
    while let Some((x, tail)) = rest.split_first() {
        let Some((y, other_tail)) = others.split_first() else {
            return false;
        };
        if !classes.same(*x, *y) {
            return false;
        }
        rest = tail;
        others = other_tail;
    }
    others.is_empty()
}
