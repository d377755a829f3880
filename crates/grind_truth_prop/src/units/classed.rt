//! Formulas in the class of `True` or `False`.
ghost use Rattle.std.specs.Prelude.{◌≡◌, ◌↔◌, IfSome, IsNone, IsTrue};
ghost use Rattle.grind_classes.specs.Classes.{IsActive, AreTogether};
ghost use Rattle.grind_truth_prop.specs.Given.{Fits};
ghost use Rattle.grind_truth_prop.specs.Classed.{IsClassed, IsNotClassed, NoneClassed};

use crate::known::is_known;
use crate::types::Known;
use grind_classes::Classes;
use grind_term_graph::NodeId;

/// An unknown formula in the class of `True`, or of `False`.
#[derive(Clone, Copy, Debug)]
pub struct ClassTruth {
    /// The formula.
    pub node: NodeId,
    /// Whether it is in the class of `True`.
    pub value: bool,
}

/// Whether the two nodes, the first of them active, are in one class.
fn is_with(classes: &Classes, n: NodeId, other: NodeId) -> bool
    requires { IsActive classes.now.lists n }
    ensures { IsTrue result ↔ AreTogether classes.now.lists n other }
{
    if !classes.is_active(other) {
        return false;
    }
    classes.same(n, other)
}

/// The truth of the class of an unknown node, if it is that of `True` or of `False`.
pub fn truth_of_class(known: &Known, classes: &Classes, n: NodeId) -> Option<bool>
    ensures found { IfSome result (λ value. IsClassed known.now classes.now.lists n value) }
    ensures none { IsNone result → IsNotClassed known.now classes.now.lists n }
{
    if !classes.is_active(n) {
        return None;
    }
    if is_known(known, n) {
        return None;
    }
    if is_with(classes, n, NodeId::TRUE) {
        return Some(true);
    }
    if is_with(classes, n, NodeId::FALSE) {
        return Some(false);
    }
    None
}

/// The first unknown node in the class of `True` or `False`.
pub fn first_classed(known: &Known, classes: &Classes) -> Option<ClassTruth>
    requires { Fits known.now classes.now.lists }
    ensures found { IfSome result (λ it. IsClassed known.now classes.now.lists it.node it.value) }
    ensures none { IsNone result → NoneClassed known.now classes.now.lists }
{
    for number in 0..known.terms.len() {
        let node = NodeId::new(number);
        if let Some(value) = truth_of_class(known, classes, node) {
            return Some(ClassTruth { node, value });
        }
    }
    None
}
