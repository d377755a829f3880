//! Known formulas that are not in the class of `True` or `False`.
ghost use Rattle.std.specs.Prelude.{IfSome, IsNone, IsTrue, IsFalse, true, false};
ghost use Rattle.grind_classes.specs.Classes.{AreTogether};
ghost use Rattle.grind_term_rules.specs.TermRules.{true_node, false_node};
ghost use Rattle.grind_truth_prop.specs.Given.{KnownToHold, KnownToFail, Fits};
ghost use Rattle.grind_closure_steps.specs.Truths.{IsLeft, HasNothingLeft, NothingLeft};

use crate::given::{are_together, fails, holds};
use grind_classes::Classes;
use grind_term_graph::NodeId;
use grind_truth_prop::Known;

/// A known formula that is not in the class of `True`, or of `False`.
#[derive(Clone, Copy, Debug)]
pub struct TruthLeft {
    /// The formula.
    pub node: NodeId,
    /// Whether it is known to hold.
    pub value: bool,
}

/// Whether the node is in the class of `True`, if it is known to hold.
fn is_said_true(known: &Known, classes: &Classes, n: NodeId) -> bool
    ensures yes { IsTrue result → KnownToHold known.now n → AreTogether classes.now.lists n true_node }
    ensures no { IsFalse result → IsLeft known.now classes.now.lists n true }
{
    if !holds(known, n) {
        return true;
    }
    are_together(classes, n, NodeId::TRUE)
}

/// Whether the node is in the class of `False`, if it is known to fail.
fn is_said_false(known: &Known, classes: &Classes, n: NodeId) -> bool
    ensures yes { IsTrue result → KnownToFail known.now n → AreTogether classes.now.lists n false_node }
    ensures no { IsFalse result → IsLeft known.now classes.now.lists n false }
{
    if !fails(known, n) {
        return true;
    }
    are_together(classes, n, NodeId::FALSE)
}

/// What is known of the node and not said by its class, if anything is.
pub fn truth_left_at(known: &Known, classes: &Classes, n: NodeId) -> Option<bool>
    ensures found { IfSome result (λ value. IsLeft known.now classes.now.lists n value) }
    ensures none { IsNone result → HasNothingLeft known.now classes.now.lists n }
{
    if is_said_true(known, classes, n) {
        if is_said_false(known, classes, n) {
            None
        } else {
            Some(false)
        }
    } else {
        Some(true)
    }
}

/// The first known formula that is not in the class of `True` or `False`.
pub fn first_truth(known: &Known, classes: &Classes) -> Option<TruthLeft>
    requires { Fits known.now classes.now.lists }
    ensures found { IfSome result (λ it. IsLeft known.now classes.now.lists it.node it.value) }
    ensures none { IsNone result → NothingLeft known.now classes.now.lists }
{
    for number in 0..known.terms.len() {
        let node = NodeId::new(number);
        if let Some(value) = truth_left_at(known, classes, node) {
            return Some(TruthLeft { node, value });
        }
    }
    None
}
