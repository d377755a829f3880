//! What the truth table of a connective gives.
ghost use Rattle.std.specs.Prelude.{◌<◌, length, IfOk, IfSome, IsNone};
ghost use Rattle.grind_truth_prop.specs.Given.{Fits};
ghost use Rattle.grind_truth_prop.specs.Connectives.{SettlesNothing, NoneSettled};
ghost use Rattle.grind_truth_prop.specs.Ways.{HasWay, IsMarkOf, IsBlank, IsJointOf};
ghost use Rattle.grind_truth_prop.specs.Findings.{IsOpenIn, IsForced, IsForcedAmong, IsOpenAmong, IsFinding, AreTheTwo};

use crate::known::{fails, holds, is_known};
use crate::terms::{Connective, connective_at};
use crate::types::Known;
use crate::ways::{Joint, Mark, Place, forced, has_way};
use grind_classes::Classes;
use grind_outside::{List, Memory};
use grind_term_graph::NodeId;
use std::alloc::Global;

/// What follows at a connective.
#[derive(Clone, Copy, Debug)]
pub enum Finding {
    /// Nothing is possible.
    Contradiction,
    /// An unknown formula has one truth left.
    Truth {
        /// The formula.
        node: NodeId,
        /// Its truth.
        value: bool,
        /// The first argument of the connective.
        first: NodeId,
        /// The second argument, which of a negation is the first.
        second: NodeId,
    },
}

/// A connective, and what follows at it.
#[derive(Clone, Copy, Debug)]
pub struct Settled {
    /// The connective.
    pub node: NodeId,
    /// What follows.
    pub finding: Finding,
}

/// What is known of the node.
fn mark_of(known: &Known, n: NodeId) -> Mark
    ensures { IsMarkOf known.now n result }
{
    Mark {
        holds: holds(known, n),
        fails: fails(known, n),
    }
}

/// The connective with its arguments marked as they are known, and itself not marked.
pub(crate) fn arguments_of(known: &Known, it: &Connective) -> Joint
    ensures joint { IsJointOf known.now it.now.head it.now.first it.now.second result }
    ensures blank { IsBlank result.whole }
{
    Joint {
        head: it.head,
        alike: it.first == it.second,
        whole: Mark {
            holds: false,
            fails: false,
        },
        first: mark_of(known, it.first),
        second: mark_of(known, it.second),
    }
}

/// The connective of that number and its arguments, marked as they are known.
fn joint_of(known: &Known, n: NodeId, it: &Connective) -> Joint
    ensures joint { IsJointOf known.now it.now.head it.now.first it.now.second result }
    ensures whole { IsMarkOf known.now n result.whole }
{
    let mut joint = arguments_of(known, it);
    joint.whole = mark_of(known, n);
    joint
}

/// The only truth that the unknown node at the place can have, if there is only one.
fn forced_at(known: &Known, joint: &Joint, place: Place, n: NodeId) -> Option<bool>
    requires { HasWay joint.now }
    ensures found { IfSome result (λ value. IsForced known.now joint.now place n value) }
    ensures none { IsNone result → IsOpenIn known.now joint.now place n }
{
    if is_known(known, n) {
        return None;
    }
    forced(joint, place)
}

/// A formula among a connective and its arguments, and the only truth that it can have.
#[derive(Clone, Copy, Debug)]
struct Forced {
    node: NodeId,
    value: bool,
}

/// The first of the connective and its arguments that is not known and can have but one truth.
fn forced_among(known: &Known, joint: &Joint, n: NodeId, it: &Connective) -> Option<Forced>
    requires { HasWay joint.now }
    ensures found { IfSome result (λ forced. IsForcedAmong known.now joint.now n it.now forced.node forced.value) }
    ensures none { IsNone result → IsOpenAmong known.now joint.now n it.now }
{
    if let Some(value) = forced_at(known, joint, Place::Whole, n) {
        return Some(Forced { node: n, value });
    }
    if let Some(value) = forced_at(known, joint, Place::First, it.first) {
        let node = it.first;
        return Some(Forced { node, value });
    }
    if let Some(value) = forced_at(known, joint, Place::Second, it.second) {
        let node = it.second;
        return Some(Forced { node, value });
    }
    None
}

/// What follows at the connective of that number, if it is an active one.
pub fn finding_at(known: &Known, classes: &Classes, n: NodeId) -> Option<Finding>
    requires fits { Fits known.now classes.now.lists }
    requires within { n < length known.now.terms.nodes }
    ensures found { IfSome result (λ finding. IsFinding known.now classes.now.lists n finding) }
    ensures none { IsNone result → SettlesNothing known.now classes.now.lists n }
{
    if !classes.is_active(n) {
        return None;
    }
    let Some(it) = connective_at(&known.terms, n) else {
        return None;
    };
    let joint = joint_of(known, n, &it);
    if !has_way(&joint) {
        return Some(Finding::Contradiction);
    }
    let Some(forced) = forced_among(known, &joint, n, &it) else {
        return None;
    };
    Some(Finding::Truth {
        node: forced.node,
        value: forced.value,
        first: it.first,
        second: it.second,
    })
}

/// The first connective at which something follows.
pub fn first_settled(known: &Known, classes: &Classes) -> Option<Settled>
    requires { Fits known.now classes.now.lists }
    ensures found { IfSome result (λ it. IsFinding known.now classes.now.lists it.node it.finding) }
    ensures none { IsNone result → NoneSettled known.now classes.now.lists }
{
    for number in 0..known.terms.len() {
        let node = NodeId::new(number);
        if let Some(finding) = finding_at(known, classes, node) {
            return Some(Settled { node, finding });
        }
    }
    None
}

/// The two nodes, or the one that both are.
pub(crate) fn free_nodes(
    alloc: Global,
    first: NodeId,
    second: NodeId,
) -> Result<List<NodeId>, Memory>
    ensures { IfOk result (λ free. AreTheTwo first second free) }
{
    let mut free = List::new(alloc);
    free.push(first)?;
    if first != second {
        free.push(second)?;
    }
    Ok(free)
}
