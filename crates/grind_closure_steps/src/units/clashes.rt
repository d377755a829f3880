//! Contradictions.
ghost use Rattle.std.specs.Prelude.{IfSome, IsNone, IsTrue, ◌↔◌};
ghost use Rattle.grind_truth_prop.specs.Given.{Fits};
ghost use Rattle.grind_closure_steps.specs.Clashes.{AreApartTogether, NoneApart, IsOpposed, NoneOpposed, IsClashStep, NoClash};

use crate::given::{are_together, fails, holds};
use crate::types::ClosureStep;
use crate::units::numbers::first_numbers;
use grind_classes::Classes;
use grind_term_graph::NodeId;
use grind_truth_prop::Known;

/// Whether the different nodes at that place are in one class.
fn are_apart_together(known: &Known, classes: &Classes, place: usize) -> bool
    ensures { IsTrue result ↔ AreApartTogether known.now classes.now.lists place }
{
    match known.apart.as_slice().get(place) {
        Some(pair) => are_together(classes, pair.left, pair.right),
        None => false,
    }
}

/// The place of the first two different nodes that are in one class.
fn first_apart(known: &Known, classes: &Classes) -> Option<u32>
    ensures found { IfSome result (λ place. AreApartTogether known.now classes.now.lists place) }
    ensures none { IsNone result → NoneApart known.now classes.now.lists }
{
    for place in 0..known.apart.len() {
        if are_apart_together(known, classes, place) {
            return Some(place as u32);
        }
    }
    None
}

/// The first formula that is known to hold and to fail.
fn first_opposed(known: &Known, classes: &Classes) -> Option<NodeId>
    requires { Fits known.now classes.now.lists }
    ensures found { IfSome result (λ node. IsOpposed known.now node) }
    ensures none { IsNone result → NoneOpposed known.now }
{
    for number in 0..known.terms.len() {
        let node = NodeId::new(number);
        if holds(known, node) && fails(known, node) {
            return Some(node);
        }
    }
    None
}

/// A contradiction among what is known and the classes, if there is one.
pub fn first_clash(known: &Known, classes: &Classes) -> Option<ClosureStep>
    requires { Fits known.now classes.now.lists }
    ensures found { IfSome result (λ step. IsClashStep known.now classes.now.lists step) }
    ensures none { IsNone result → NoClash known.now classes.now.lists }
{
    if are_together(classes, NodeId::TRUE, NodeId::FALSE) {
        return Some(ClosureStep::BothTruths);
    }
    if let Some(it) = first_numbers(known, classes) {
        return Some(ClosureStep::Numbers {
            left: it.left,
            right: it.right,
        });
    }
    if let Some(place) = first_apart(known, classes) {
        return Some(ClosureStep::Apart { place });
    }
    match first_opposed(known, classes) {
        Some(node) => Some(ClosureStep::Opposed { node }),
        None => None,
    }
}
