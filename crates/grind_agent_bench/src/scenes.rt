//! What the agents are given: known truths, and classes of the nodes of a goal.
ghost use Rattle.std.specs.Prelude.{IfOk, OnOk};
ghost use Rattle.grind_scenes.specs.Scenes.{AreClassesOf};

use grind_classes::Classes;
use grind_outside::{List, Memory};
use grind_scenes::{all_alone, join, marks_but, marks_of};
use grind_term_graph::{Head, NodeId, TermTable};
use grind_truth_prop::Known;
use std::alloc::Global;

/// The arguments of an equation.
#[derive(Clone, Copy)]
struct Sides {
    left: NodeId,
    right: NodeId,
}

/// The terms, where `False` is known to fail and every other node to hold.
///
/// # Errors
///
/// `Memory` if out of memory.
pub fn known_of(alloc: Global, terms: &TermTable) -> Result<Known, Memory> {
    let count = terms.len();
    let fails = [NodeId::FALSE.number()];
    Ok(Known {
        terms: terms.copy(alloc, u32::MAX)?,
        holds: marks_but(alloc, count, &fails)?,
        fails: marks_of(alloc, count, &fails)?,
        same: List::new(alloc),
        apart: List::new(alloc),
    })
}

/// Each node in a class of its own, or with the sides of each hypothesis that is an equation in one class.
///
/// # Errors
///
/// `Memory` if out of memory.
pub fn classes_of(
    alloc: Global,
    terms: &TermTable,
    hyps: &[NodeId],
    joins: bool,
) -> Result<Classes, Memory>
    ensures { IfOk result (λ classes. AreClassesOf terms.now.nodes classes.lists) }
{
    let mut classes = all_alone(alloc, terms)?;
    if !joins {
        return Ok(classes);
    }
    join_hypotheses(alloc, terms, hyps, &mut classes)?;
    Ok(classes)
}

/// Joins the sides of each hypothesis that is an equation.
fn join_hypotheses(
    alloc: Global,
    terms: &TermTable,
    hyps: &[NodeId],
    classes: &mut Classes,
) -> Result<(), Memory>
    requires { AreClassesOf terms.now.nodes classes.old.lists }
    ensures { OnOk result (AreClassesOf terms.now.nodes classes.new.lists) }
{
    for hyp in hyps {
        join_sides(alloc, terms, *hyp, classes)?;
    }
    Ok(())
}

/// Joins the sides of a formula, if it is an equation.
fn join_sides(
    alloc: Global,
    terms: &TermTable,
    node: NodeId,
    classes: &mut Classes,
) -> Result<(), Memory>
    requires { AreClassesOf terms.now.nodes classes.old.lists }
    ensures { OnOk result (AreClassesOf terms.now.nodes classes.new.lists) }
{
    let Some(sides) = sides_of(terms, node) else {
        return Ok(());
    };
    join(alloc, terms, classes, sides.left, sides.right)?;
    Ok(())
}

/// The sides of a node, if it is an equation.
fn sides_of(terms: &TermTable, node: NodeId) -> Option<Sides> {
    if node.number() >= terms.len() {
        return None;
    }
    let node = terms.node(node);
    if node.head != Head::Eq {
        return None;
    }
    let [left, right] = node.args.as_slice() else {
        return None;
    };
    Some(Sides {
        left: *left,
        right: *right,
    })
}
