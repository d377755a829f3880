//! The rules over linear forms: read, write, line, pinch and strict.
ghost use Rattle.std.specs.Prelude.{IsTrue, ◌↔◌, ◌≡◌, ◌<◌, ◌⊎◌, ℕ, [], ◌∷◌, Some, length, All, IfOk, IfSome, IfNone, pos};
ghost use Rattle.grind_differences.specs.Differences.{difference, IsDifferencePlus, IsDifferenceOver};
ghost use Rattle.grind_claims.specs.Claims.{claims_of};
ghost use Rattle.grind_arithmetic_rules.specs.LinearRules.{IsComparison, Compares, IsRead, IsWrite, IsLine, IsPinch, IsStrict};

use crate::numbers::fits;
use grind_claims::Claim;
use grind_claims::premises::{only_premise, two_premises};
use grind_differences::{
    is_difference, is_difference_or_more, is_difference_plus_one, is_more_than_difference,
    is_plus_one,
};
use grind_linear_forms::Form;
use grind_outside::Memory;
use grind_term_graph::{Head, NodeId, TermTable};
use std::alloc::Global;

/// read: a comparison that holds bounds the difference of its sides, and one that fails the opposite difference and 1, which
/// fits.
///
/// # Errors
/// `Memory` if out of memory.
pub fn is_read(
    alloc: Global,
    terms: &TermTable,
    premises: &[&Claim],
    claim: &Claim,
) -> Result<bool, Memory>
    ensures { IfOk result (λ yes. IsTrue yes ↔ IsRead terms.now.nodes (claims_of premises.now) claim.now) }
{
    let Some(premise) = only_premise(premises) else {
        return Ok(false);
    };
    let Claim::AtMost(form) = claim else {
        return Ok(false);
    };
    match premise {
        Claim::Holds(node) => bounds_sides(alloc, terms, *node, form),
        Claim::Fails(node) => {
            let is = bounds_opposite_sides(alloc, terms, *node, form)?;
            Ok(is && fits(form.constant()))
        }
        _ => Ok(false),
    }
}

/// write: a comparison holds where the difference of its sides, or that and more, is at most 0; and it fails where the
/// opposite difference and 1 or more is.
///
/// # Errors
/// `Memory` if out of memory.
pub fn is_write(
    alloc: Global,
    terms: &TermTable,
    premises: &[&Claim],
    claim: &Claim,
) -> Result<bool, Memory>
    ensures { IfOk result (λ yes. IsTrue yes ↔ IsWrite terms.now.nodes (claims_of premises.now) claim.now) }
{
    let Some(premise) = only_premise(premises) else {
        return Ok(false);
    };
    let Claim::AtMost(form) = premise else {
        return Ok(false);
    };
    match claim {
        Claim::Holds(node) => settles_sides(alloc, terms, *node, form),
        Claim::Fails(node) => settles_opposite_sides(alloc, terms, *node, form),
        _ => Ok(false),
    }
}

/// Whether the node is a comparison, and the form the difference of its sides.
fn bounds_sides(alloc: Global, terms: &TermTable, node: NodeId, form: &Form) -> Result<bool, Memory>
    ensures { IfOk result (λ yes. IsTrue yes ↔ Compares terms.now.nodes node
        (λ a b. difference terms.now.nodes a b ≡ Some form.now)) }
{
    let Some((left, right)) = sides_of(terms, node) else {
        return Ok(false);
    };
    let is = is_difference(alloc, terms, left, right, form)?;
    Ok(is)
}

/// Whether the node is a comparison, and the form the opposite difference of its sides and 1.
fn bounds_opposite_sides(
    alloc: Global,
    terms: &TermTable,
    node: NodeId,
    form: &Form,
) -> Result<bool, Memory>
    ensures { IfOk result (λ yes. IsTrue yes ↔ Compares terms.now.nodes node
        (λ a b. IsDifferencePlus terms.now.nodes b a (pos 1) form.now)) }
{
    let Some((left, right)) = sides_of(terms, node) else {
        return Ok(false);
    };
    let is = is_difference_plus_one(alloc, terms, right, left, form)?;
    Ok(is)
}

/// Whether the node is a comparison, and the form the difference of its sides or more.
fn settles_sides(
    alloc: Global,
    terms: &TermTable,
    node: NodeId,
    form: &Form,
) -> Result<bool, Memory>
    ensures { IfOk result (λ yes. IsTrue yes ↔ Compares terms.now.nodes node
        (λ a b. IsDifferenceOver terms.now.nodes a b (pos 0) form.now)) }
{
    let Some((left, right)) = sides_of(terms, node) else {
        return Ok(false);
    };
    let is = is_difference_or_more(alloc, terms, left, right, form)?;
    Ok(is)
}

/// Whether the node is a comparison, and the form more than the opposite difference of its sides.
fn settles_opposite_sides(
    alloc: Global,
    terms: &TermTable,
    node: NodeId,
    form: &Form,
) -> Result<bool, Memory>
    ensures { IfOk result (λ yes. IsTrue yes ↔ Compares terms.now.nodes node
        (λ a b. IsDifferenceOver terms.now.nodes b a (pos 1) form.now)) }
{
    let Some((left, right)) = sides_of(terms, node) else {
        return Ok(false);
    };
    let is = is_more_than_difference(alloc, terms, right, left, form)?;
    Ok(is)
}

/// The sides of a comparison.
fn sides_of(terms: &TermTable, node: NodeId) -> Option<(NodeId, NodeId)>
    ensures some { IfSome result (λ sides. IsComparison terms.now.nodes node sides.0 sides.1) }
    ensures none { IfNone result ((a b : ℕ) → ¬ IsComparison terms.now.nodes node a b) }
{
    if node.number() >= terms.len() {
        return None;
    }
    let it = terms.node(node);
    if it.head != Head::Le {
        return None;
    }
    two_sides(it.args.as_slice())
}

#[tactic(auto, using(crate::proofs::BoundLemmas::two_items))]
/// The two arguments, where there are two.
fn two_sides(args: &[NodeId]) -> Option<(NodeId, NodeId)>
    ensures some { IfSome result (λ sides. args.now ≡ sides.0 ∷ sides.1 ∷ []) }
    ensures none { IfNone result ((a b : ℕ) → ¬ (args.now ≡ a ∷ b ∷ [])) }
{
    let [first, second] = args else {
        return None;
    };
    Some((*first, *second))
}

/// line: the difference of two whole numbers that are equal is at most 0.
///
/// # Errors
/// `Memory` if out of memory.
pub fn is_line(
    alloc: Global,
    terms: &TermTable,
    premises: &[&Claim],
    claim: &Claim,
) -> Result<bool, Memory>
    ensures { IfOk result (λ yes. IsTrue yes ↔ IsLine terms.now.nodes (claims_of premises.now) claim.now) }
{
    let Some(premise) = only_premise(premises) else {
        return Ok(false);
    };
    let Claim::Same(a, b) = premise else {
        return Ok(false);
    };
    let Claim::AtMost(form) = claim else {
        return Ok(false);
    };
    let is = is_difference(alloc, terms, *a, *b, form)?;
    Ok(is)
}

/// pinch: two whole numbers are equal where both differences are at most 0.
///
/// # Errors
/// `Memory` if out of memory.
pub fn is_pinch(
    alloc: Global,
    terms: &TermTable,
    premises: &[&Claim],
    claim: &Claim,
) -> Result<bool, Memory>
    ensures { IfOk result (λ yes. IsTrue yes ↔ IsPinch terms.now.nodes (claims_of premises.now) claim.now) }
{
    let Some((one, other)) = two_premises(premises) else {
        return Ok(false);
    };
    let Claim::AtMost(form) = one else {
        return Ok(false);
    };
    let Claim::AtMost(opposite) = other else {
        return Ok(false);
    };
    let Claim::Same(a, b) = claim else {
        return Ok(false);
    };
    let first = is_difference(alloc, terms, *a, *b, form)?;
    let second = is_difference(alloc, terms, *b, *a, opposite)?;
    Ok(first && second)
}

/// strict: where two whole numbers are different and their difference is at most 0, so is the difference and 1.
///
/// # Errors
/// `Memory` if out of memory.
pub fn is_strict(
    alloc: Global,
    terms: &TermTable,
    premises: &[&Claim],
    claim: &Claim,
) -> Result<bool, Memory>
    ensures { IfOk result (λ yes. IsTrue yes ↔ IsStrict terms.now.nodes (claims_of premises.now) claim.now) }
{
    let Some((one, other)) = two_premises(premises) else {
        return Ok(false);
    };
    let Claim::Differ(a, b) = one else {
        return Ok(false);
    };
    let Claim::AtMost(form) = other else {
        return Ok(false);
    };
    let Claim::AtMost(stricter) = claim else {
        return Ok(false);
    };
    let first = is_difference(alloc, terms, *a, *b, form)?;
    let second = is_difference(alloc, terms, *b, *a, form)?;
    Ok(is_plus_one(form, stricter) && (first || second) && fits(stricter.constant()))
}
