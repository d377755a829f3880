//! Two active terms, in different classes, neither of which is over the other.
ghost use Rattle.std.specs.Prelude.{◌≡◌, ℕ, length, IfOk, MatchOption};
ghost use Rattle.grind_cutsat_assignment.specs.Given.{given};
ghost use Rattle.grind_cutsat_units.specs.Pinches.{Pinches, NonePinched};
ghost use Rattle.grind_cutsat_terms.specs.Pinching.{BoundsDifference, IsUnpinched, AreUnpinched};

use crate::known::is_new_pair;
use grind_claims::Claim;
use grind_cutsat_units::View;
use grind_differences::difference;
use grind_outside::Memory;
use grind_term_graph::NodeId;
use std::alloc::Global;

/// Two terms that are equal, as neither is over the other.
#[derive(Clone, Copy)]
pub struct Pinch {
    /// The first term.
    pub left: NodeId,
    /// The second term.
    pub right: NodeId,
    /// The post that bounds the first less the second.
    pub first: u32,
    /// The post that bounds the second less the first.
    pub second: u32,
}

/// Two active terms, in different classes, whose differences are both bounded by posts, if there are any.
///
/// # Errors
///
/// `Memory` if out of memory.
pub fn pinches_two_terms(alloc: Global, view: &View) -> Result<Option<Pinch>, Memory>
    ensures { IfOk result (λ found. MatchOption found
        (NonePinched (given view.now.facts.now view.now.terms.now.nodes view.now.classes.now.lists))
        (λ it. Pinches (given view.now.facts.now view.now.terms.now.nodes view.now.classes.now.lists) it.left it.right it.first it.second)) }
{
    for number in 0..view.terms.len() {
        let node = NodeId::new(number);
        let found = pinched_with(alloc, view, node)?;
        if let Some(it) = found {
            return Ok(Some(it));
        }
    }
    Ok(None)
}

// A term that is pinched with this one.
fn pinched_with(alloc: Global, view: &View, left: NodeId) -> Result<Option<Pinch>, Memory>
    ensures { IfOk result (λ found. MatchOption found
        (AreUnpinched (given view.now.facts.now view.now.terms.now.nodes view.now.classes.now.lists) left (length view.now.terms.now.nodes))
        (λ it. Pinches (given view.now.facts.now view.now.terms.now.nodes view.now.classes.now.lists) it.left it.right it.first it.second)) }
{
    for number in 0..view.terms.len() {
        let right = NodeId::new(number);
        let found = pinched_at(alloc, view, left, right)?;
        if let Some(it) = found {
            return Ok(Some(it));
        }
    }
    Ok(None)
}

// Whether these two are pinched.
fn pinched_at(
    alloc: Global,
    view: &View,
    left: NodeId,
    right: NodeId,
) -> Result<Option<Pinch>, Memory>
    ensures { IfOk result (λ found. MatchOption found
        (IsUnpinched (given view.now.facts.now view.now.terms.now.nodes view.now.classes.now.lists) left right)
        (λ it. Pinches (given view.now.facts.now view.now.terms.now.nodes view.now.classes.now.lists) it.left it.right it.first it.second)) }
{
    if !is_new_pair(view, left, right) {
        return Ok(None);
    }
    let above = bounding_post(alloc, view, left, right)?;
    let Some(first) = above else {
        return Ok(None);
    };
    let below = bounding_post(alloc, view, right, left)?;
    let Some(second) = below else {
        return Ok(None);
    };
    Ok(Some(Pinch {
        left,
        right,
        first,
        second,
    }))
}

// A post that bounds the difference of the two.
fn bounding_post(alloc: Global, view: &View, a: NodeId, b: NodeId) -> Result<Option<u32>, Memory>
    ensures { IfOk result (λ found. MatchOption found
        ((post : ℕ) → ¬ BoundsDifference (given view.now.facts.now view.now.terms.now.nodes view.now.classes.now.lists) a b post)
        (λ post. BoundsDifference (given view.now.facts.now view.now.terms.now.nodes view.now.classes.now.lists) a b post)) }
{
    let found = difference(alloc, view.terms, a, b)?;
    let Some(form) = found else {
        return Ok(None);
    };
    Ok(view.facts.post_of(&Claim::AtMost(form)))
}
