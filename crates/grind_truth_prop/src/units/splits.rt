//! The formula whose truth is to be tried.
ghost use Rattle.std.specs.Prelude.{◌≡◌, ◌↔◌, false, IfSome, IsNone, IsTrue};
ghost use Rattle.grind_classes.specs.Classes.{IsActive, IsPartition};
ghost use Rattle.grind_truth_prop.specs.Given.{Fits, IsKnown, IsUnknown};
ghost use Rattle.grind_truth_prop.specs.Splits.{CanBeTried, HasSidesTogether, IsUnfixed, IsFixedIfKnown, IsWantedAt, WantsNothing, SharesClass, IsAloneIfUnknown, IsWanted, NoneWanted};
ghost use Rattle.grind_truth_prop.specs.Findings.{IsConnectiveOf, AreBothKnown, IsFirstUnknownOf};
ghost use Rattle.grind_truth_prop.specs.Ways.{args_of};

use crate::known::is_known;
use crate::terms::{Connective, connective_at};
use crate::types::Known;
use crate::units::connectives::arguments_of;
use crate::ways::{Place, can_have};
use grind_classes::Classes;
use grind_term_graph::{Head, NodeId};

/// Whether a node of this head is a connective, an equation or a comparison.
fn can_be_tried(head: Head) -> bool
    ensures { IsTrue result ↔ CanBeTried head }
{
    match head {
        Head::Not | Head::And | Head::Or | Head::Implies | Head::Eq | Head::Le => true,
        Head::True
        | Head::False
        | Head::Int(_)
        | Head::Add
        | Head::Neg
        | Head::Mul
        | Head::Fun(_)
        | Head::Const(_) => false,
    }
}

/// The first of the two arguments that is not known.
fn first_unknown(known: &Known, it: &Connective) -> Option<NodeId>
    ensures found { IfSome result (λ m. IsFirstUnknownOf known.now it.now m) }
    ensures none { IsNone result → AreBothKnown known.now it.now }
{
    if !is_known(known, it.first) {
        return Some(it.first);
    }
    if !is_known(known, it.second) {
        return Some(it.second);
    }
    None
}

/// Whether the active connective is an equation of two nodes in one class.
fn has_sides_together(known: &Known, classes: &Classes, n: NodeId, it: &Connective) -> bool
    requires fits { Fits known.now classes.now.lists }
    requires active { IsActive classes.now.lists n }
    requires connective { IsConnectiveOf known.now.terms.nodes n it.now }
    ensures { IsTrue result ↔ HasSidesTogether classes.now.lists it.now.head (args_of it.now.head it.now.first it.now.second) }
{
    if it.head != Head::Eq {
        return false;
    }
    classes.same(it.first, it.second)
}

/// The first unknown argument of the known connective of that number, if it is one that is not fixed.
pub fn unfixed_at(known: &Known, classes: &Classes, n: NodeId) -> Option<NodeId>
    requires fits { Fits known.now classes.now.lists }
    requires known { IsKnown known.now n }
    ensures found { IfSome result (λ m. IsUnfixed known.now classes.now.lists n m) }
    ensures none { IsNone result → IsFixedIfKnown known.now classes.now.lists n }
{
    let Some(it) = connective_at(&known.terms, n) else {
        return None;
    };
    if has_sides_together(known, classes, n, &it) {
        return None;
    }
    let joint = arguments_of(known, &it);
    if !can_have(&joint, Place::Whole, true) {
        return None;
    }
    if !can_have(&joint, Place::Whole, false) {
        return None;
    }
    first_unknown(known, &it)
}

/// Whether the active node is a connective, an equation or a comparison with another node in its class.
fn shares_class(known: &Known, classes: &Classes, n: NodeId) -> bool
    requires fits { Fits known.now classes.now.lists }
    requires partition { IsPartition classes.now.lists }
    requires unknown { IsUnknown known.now classes.now.lists n }
    ensures yes { IsTrue result → SharesClass known.now classes.now.lists n }
    ensures no { result ≡ false → IsAloneIfUnknown known.now classes.now.lists n }
{
    if !can_be_tried(known.terms.node(n).head) {
        return false;
    }
    classes.members(classes.root(n)).len() > 1
}

/// The formula whose truth is to be tried at that node, if there is one.
pub fn wanted_at(known: &Known, classes: &Classes, n: NodeId) -> Option<NodeId>
    requires fits { Fits known.now classes.now.lists }
    requires partition { IsPartition classes.now.lists }
    ensures found { IfSome result (λ m. IsWantedAt known.now classes.now.lists n m) }
    ensures none { IsNone result → WantsNothing known.now classes.now.lists n }
{
    if is_known(known, n) {
        return unfixed_at(known, classes, n);
    }
    if !classes.is_active(n) {
        return None;
    }
    if !shares_class(known, classes, n) {
        return None;
    }
    Some(n)
}

/// The formula whose truth is to be tried, at the first node at which there is one.
pub fn first_wanted(known: &Known, classes: &Classes) -> Option<NodeId>
    requires fits { Fits known.now classes.now.lists }
    requires partition { IsPartition classes.now.lists }
    ensures found { IfSome result (λ m. IsWanted known.now classes.now.lists m) }
    ensures none { IsNone result → NoneWanted known.now classes.now.lists }
{
    for number in 0..known.terms.len() {
        let node = NodeId::new(number);
        if let Some(literal) = wanted_at(known, classes, node) {
            return Some(literal);
        }
    }
    None
}
