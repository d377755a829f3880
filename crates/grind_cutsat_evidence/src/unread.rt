//! Posts whose reading, or cut, does not fit.
ghost use Rattle.std.specs.Prelude.{◌≡◌, ◌≤◌, ◌^◌, ◌⊎◌, [], ◌∷◌, ℕ, ℤ, None, Some, pos, negsuc, IfOk, IsTrue, ◌↔◌, MatchOption};
ghost use Rattle.grind_term_graph.specs.Terms.{int, sort_at};
ghost use Rattle.grind_differences.specs.Differences.{difference};
ghost use Rattle.grind_linear_forms.specs.Forms.{number_form};
ghost use Rattle.grind_arithmetic_rules.specs.LinearRules.{combined};
ghost use Rattle.grind_claims.specs.declared.claim.Claim.TheVariants.{AtMost, Zero};
ghost use Rattle.grind_cutsat_assignment.specs.Given.{given};
ghost use Rattle.grind_cutsat_units.specs.Cuts.{FailToCombine};
ghost use Rattle.grind_cutsat_evidence.specs.Evidence.{IsUnreadable};
ghost use Rattle.grind_cutsat_evidence.specs.Unread.{HasNoNext, IsUnreadHeld, IsUnreadFailed, IsUnreadSame, IsUnreadSigned, IsUnreadZero, IsUnread, HasUnfitDivisor};

use grind_claims::Claim;
use grind_cutsat_cuts::combining::sum_of_one;
use grind_cutsat_cuts::divisor::shared;
use grind_cutsat_units::View;
use grind_cutsat_units::sides::{one_more, sides_of};
use grind_differences::{difference, form_of, is_number};
use grind_linear_forms::{Form, FormRefusal, Part, add_scaled};
use grind_outside::Memory;
use grind_polynomials::Poly;
use grind_term_graph::{NodeId, TermTable};
use std::alloc::Global;

/// A post whose reading, or cut, does not fit in 128 bits.
///
/// # Errors
///
/// `Memory` if out of memory.
pub fn unreadable(alloc: Global, view: &View) -> Result<Option<u32>, Memory>
    ensures { IfOk result (λ found. MatchOption found
        ((post : ℕ) → ¬ IsUnreadable (given view.now.facts.now view.now.terms.now.nodes view.now.classes.now.lists) post)
        (IsUnreadable (given view.now.facts.now view.now.terms.now.nodes view.now.classes.now.lists))) }
{
    let mut rest = view.facts.as_slice();
    while let Some((fact, tail)) = rest.split_first() {
        let unread = is_unread(alloc, view.terms, &fact.claim)?;
        if unread {
            return Ok(Some(fact.post));
        }
        rest = tail;
    }
    Ok(None)
}

// Whether the reading of the claim, or its cut, does not fit.
fn is_unread(alloc: Global, terms: &TermTable, claim: &Claim) -> Result<bool, Memory>
    ensures { IfOk result (λ yes. IsTrue yes ↔ IsUnread terms.now.nodes claim.now) }
{
    match claim {
        Claim::Holds(node) => {
            let unread = is_unread_held(alloc, terms, *node)?;
            Ok(unread)
        }
        Claim::Fails(node) => {
            let unread = is_unread_failed(alloc, terms, *node)?;
            Ok(unread)
        }
        Claim::Same(a, b) => {
            let unread = is_unread_same(alloc, terms, *a, *b)?;
            Ok(unread)
        }
        Claim::AtMost(form) => {
            let uncut = is_uncut(alloc, form)?;
            Ok(uncut)
        }
        Claim::Zero(poly) => {
            let unread = is_unread_zero(alloc, poly)?;
            Ok(unread)
        }
        Claim::Differ(_, _) => Ok(false),
        Claim::Absurd => Ok(false),
    }
}

// Whether the node is a comparison, and the difference of its sides does not fit.
fn is_unread_held(alloc: Global, terms: &TermTable, node: NodeId) -> Result<bool, Memory>
    ensures { IfOk result (λ yes. IsTrue yes ↔ IsUnreadHeld terms.now.nodes node) }
{
    let Some(sides) = sides_of(terms, node) else {
        return Ok(false);
    };
    let unread = has_no_difference(alloc, terms, sides.left, sides.right)?;
    Ok(unread)
}

// Whether the node is a comparison, and the opposite difference of its sides and 1 does not fit.
fn is_unread_failed(alloc: Global, terms: &TermTable, node: NodeId) -> Result<bool, Memory>
    ensures { IfOk result (λ yes. IsTrue yes ↔ IsUnreadFailed terms.now.nodes node) }
{
    let Some(sides) = sides_of(terms, node) else {
        return Ok(false);
    };
    let unread = has_no_next(alloc, terms, sides.right, sides.left)?;
    Ok(unread)
}

// Whether the difference of the two does not fit.
fn has_no_difference(alloc: Global, terms: &TermTable, a: NodeId, b: NodeId) -> Result<bool, Memory>
    ensures { IfOk result (λ yes. IsTrue yes ↔ (difference terms.now.nodes a b ≡ None)) }
{
    let found = difference(alloc, terms, a, b)?;
    let Some(_form) = found else {
        return Ok(true);
    };
    Ok(false)
}

// Whether the difference of the two and 1 does not fit.
fn has_no_next(alloc: Global, terms: &TermTable, a: NodeId, b: NodeId) -> Result<bool, Memory>
    ensures { IfOk result (λ yes. IsTrue yes ↔ HasNoNext terms.now.nodes a b) }
{
    let found = difference(alloc, terms, a, b)?;
    let Some(base) = found else {
        return Ok(true);
    };
    let Some(_next) = one_more(base) else {
        return Ok(true);
    };
    Ok(false)
}

// Whether the two are whole numbers, and a difference of them does not fit.
fn is_unread_same(alloc: Global, terms: &TermTable, a: NodeId, b: NodeId) -> Result<bool, Memory>
    ensures { IfOk result (λ yes. IsTrue yes ↔ IsUnreadSame terms.now.nodes a b) }
{
    if !is_number(terms, a) {
        return Ok(false);
    }
    let one = has_no_difference(alloc, terms, a, b)?;
    if one {
        return Ok(true);
    }
    let other = has_no_difference(alloc, terms, b, a)?;
    Ok(other)
}

// Whether the equation is of degree at most 1, and does not fit as it is or negated.
fn is_unread_zero(alloc: Global, poly: &Poly) -> Result<bool, Memory>
    ensures { IfOk result (λ yes. IsTrue yes ↔ IsUnreadZero poly.now) }
{
    let linear = form_of(alloc, poly)?;
    let Some(_form) = linear else {
        return Ok(false);
    };
    let plain = is_unread_signed(alloc, poly, 1)?;
    if plain {
        return Ok(true);
    }
    let negated = is_unread_signed(alloc, poly, -1)?;
    Ok(negated)
}

// Whether the equation does not fit when it is taken so often, or is of a degree over 1.
fn is_unread_signed(alloc: Global, poly: &Poly, factor: i128) -> Result<bool, Memory>
    ensures { IfOk result (λ yes. IsTrue yes ↔ IsUnreadSigned poly.now factor) }
{
    let found = signed_form(alloc, poly, factor)?;
    let Some(_form) = found else {
        return Ok(true);
    };
    Ok(false)
}

// The equation taken so often, as a form, where its degree is at most 1 and that fits.
fn signed_form(alloc: Global, poly: &Poly, factor: i128) -> Result<Option<Form>, Memory>
    ensures { IfOk result (λ found. found ≡ combined (number_form (pos 0)) (factor ∷ []) (Zero poly.now ∷ [])) }
{
    let linear = form_of(alloc, poly)?;
    let Some(form) = linear else {
        return Ok(None);
    };
    match add_scaled(alloc, &Form::number(alloc, 0), 1, &form, factor) {
        Ok(sum) => Ok(Some(sum)),
        Err(FormRefusal::Overflow) => Ok(None),
        Err(FormRefusal::Memory) => Err(Memory),
    }
}

// Whether the cut of a bound does not fit.
fn is_uncut(alloc: Global, form: &Form) -> Result<bool, Memory>
    ensures { IfOk result (λ yes. IsTrue yes ↔ FailToCombine (pos 1 ∷ []) (AtMost form.now ∷ [])) }
{
    let found = sum_of_one(alloc, form)?;
    let Some(sum) = found else {
        return Ok(true);
    };
    Ok(has_unfit_divisor(sum.parts()))
}

// Whether the greatest common divisor of the coefficients does not fit.
pub(crate) fn has_unfit_divisor(parts: &[Part]) -> bool
    ensures { IsTrue result ↔ HasUnfitDivisor parts.now }
{
    let Some((_first, _rest)) = parts.split_first() else {
        return false;
    };
    is_over(shared(parts))
}

// Whether the number is over the greatest of 128 bits with a sign.
fn is_over(number: u128) -> bool
    ensures { IsTrue result ↔ (2 ^ 127 ≤ number) }
{
    number > 170141183460469231731687303715884105727
}
