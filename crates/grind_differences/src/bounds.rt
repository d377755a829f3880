//! Linear forms as bounds: their opposites, what is over them, and their cuts.
ghost use Rattle.std.specs.Prelude.{IsTrue, ◌↔◌, ◌≡◌, All, map, IfOk, pos, ◌+ℤ◌, neg_ℤ, ◌≤ℤ◌, ◌<ℤ◌, FitsSigned};
ghost use Rattle.std.specs.Int.{w128};
ghost use Rattle.grind_linear_forms.specs.declared.form.Part.{Part as PartData};
ghost use Rattle.grind_differences.specs.Bounds.{negated_part, opposite_form, HasOpposite, plus, IsOver, IsWithinCut};

use grind_linear_forms::{Form, Part, cut, divides, one_cut};
use grind_outside::Memory;
use std::alloc::Global;

/// Whether the form has an opposite: each number of 1 less the form fits in 128 bits.
pub fn has_opposite(form: &Form) -> bool
    ensures { IsTrue result ↔ HasOpposite form.now }
{
    have_opposites(form.parts()) && has_one_less(form.constant())
}

/// Whether each coefficient can be negated.
fn have_opposites(parts: &[Part]) -> bool
    ensures { IsTrue result ↔ All (λ (part : PartData). FitsSigned w128 (neg_ℤ part.coefficient)) parts.now }
{
    parts.iter().all(|part| has_negation(part.coefficient))
}

/// Whether the number can be negated.
fn has_negation(number: i128) -> bool
    ensures { IsTrue result ↔ FitsSigned w128 (neg_ℤ number) }
{
    number.checked_neg().is_some()
}

/// Whether 1 less the number fits.
fn has_one_less(number: i128) -> bool
    ensures { IsTrue result ↔ FitsSigned w128 (pos 1 +ℤ neg_ℤ number) }
{
    1i128.checked_sub(number).is_some()
}

/// Whether the second form is opposite to the first.
pub fn is_opposite_form(form: &Form, other: &Form) -> bool
    ensures { IsTrue result ↔ (other.now ≡ opposite_form form.now) }
{
    are_negated(form.parts(), other.parts()) && is_one_less(form.constant(), other.constant())
}

/// Whether the second number is 1 less the first.
fn is_one_less(number: i128, other: i128) -> bool
    ensures { IsTrue result ↔ (other ≡ pos 1 +ℤ neg_ℤ number) }
{
    match 1i128.checked_sub(number) {
        Some(less) => less == other,
        None => false,
    }
}

/// Whether the second parts are the first with their coefficients negated.
fn are_negated(parts: &[Part], others: &[Part]) -> bool
    ensures { IsTrue result ↔ (others.now ≡ map negated_part parts.now) }
{
    let mut these = parts;
    let mut those = others;
    while let Some((part, these_tail)) = these.split_first() {
        let Some((other, those_tail)) = those.split_first() else {
            return false;
        };
        if !is_negated(*part, *other) {
            return false;
        }
        these = these_tail;
        those = those_tail;
    }
    those.is_empty()
}

/// Whether the second part is the first with its coefficient negated.
fn is_negated(part: Part, other: Part) -> bool
    ensures { IsTrue result ↔ (other ≡ negated_part part) }
{
    match part.coefficient.checked_neg() {
        Some(coefficient) => coefficient == other.coefficient && part.node == other.node,
        None => false,
    }
}

/// Whether the second form is the first and 1.
pub fn is_plus_one(base: &Form, form: &Form) -> bool
    ensures { IsTrue result ↔ (form.now ≡ plus base.now (pos 1)) }
{
    have_same_parts(form, base) && is_next(base.constant(), form.constant())
}

/// Whether the second number is the first and 1.
fn is_next(number: i128, next: i128) -> bool
    ensures { IsTrue result ↔ (next ≡ number +ℤ pos 1) }
{
    match number.checked_add(1) {
        Some(sum) => sum == next,
        None => false,
    }
}

/// Whether the second form is the first and a number that is not negative.
pub fn is_at_least(base: &Form, form: &Form) -> bool
    ensures { IsTrue result ↔ IsOver base.now (pos 0) form.now }
{
    have_same_parts(form, base) && base.constant() <= form.constant()
}

/// Whether the second form is the first and a number of at least 1.
pub fn is_above(base: &Form, form: &Form) -> bool
    ensures { IsTrue result ↔ IsOver base.now (pos 1) form.now }
{
    have_same_parts(form, base) && base.constant() < form.constant()
}

/// Whether the forms are the same.
pub fn is_same_form(one: &Form, other: &Form) -> bool
    ensures { IsTrue result ↔ (one.now ≡ other.now) }
{
    have_same_parts(one, other) && one.constant() == other.constant()
}

/// Whether the forms have the same parts.
pub fn have_same_parts(one: &Form, other: &Form) -> bool
    ensures { IsTrue result ↔ (one.now.parts ≡ other.now.parts) }
{
    are_same_parts(one.parts(), other.parts())
}

/// Whether the parts are the same.
fn are_same_parts(parts: &[Part], others: &[Part]) -> bool
    ensures { IsTrue result ↔ (parts.now ≡ others.now) }
{
    let mut these = parts;
    let mut those = others;
    while let Some((part, these_tail)) = these.split_first() {
        let Some((other, those_tail)) = those.split_first() else {
            return false;
        };
        if !is_same_part(*part, *other) {
            return false;
        }
        these = these_tail;
        those = those_tail;
    }
    those.is_empty()
}

/// Whether the two parts are the same.
fn is_same_part(part: Part, other: Part) -> bool
    ensures { IsTrue result ↔ (part ≡ other) }
{
    part == other
}

/// Whether the form has the coefficients of the sum divided by a positive number that divides them, and at most its
/// constant.
///
/// # Errors
/// `Memory` if out of memory.
pub fn is_within_cut(alloc: Global, sum: &Form, divisor: i128, form: &Form) -> Result<bool, Memory>
    ensures { IfOk result (λ yes. IsTrue yes ↔ IsWithinCut sum.now divisor form.now) }
{
    if !is_positive(divisor) {
        return Ok(false);
    }
    if !divides(divisor, sum) {
        return Ok(false);
    }
    one_cut();
    match cut(alloc, sum, divisor) {
        Ok(whole) => Ok(is_at_most(form, &whole)),
        Err(_) => Err(Memory),
    }
}

/// Whether the number is greater than 0.
fn is_positive(number: i128) -> bool
    ensures { IsTrue result ↔ (pos 0 <ℤ number) }
{
    0 < number
}

/// Whether the first form has the parts of the second, and at most its constant.
fn is_at_most(form: &Form, whole: &Form) -> bool
    ensures { IsTrue result ↔ ((form.now.parts ≡ whole.now.parts) × (form.now.constant ≤ℤ whole.now.constant)) }
{
    have_same_parts(form, whole) && form.constant() <= whole.constant()
}
