//! The rule of sums of bounds: combine.
ghost use Rattle.std.specs.Prelude.{IsTrue, ◌↔◌, ◌≡◌, ◌<◌, Some, length, All, IfOk, pos};
ghost use Rattle.grind_linear_forms.specs.Forms.{number_form};
ghost use Rattle.grind_linear_forms.specs.Sums.{scaled_sum};
ghost use Rattle.std.specs.Option.{option_and_then};
ghost use Rattle.grind_claims.specs.Claims.{claims_of};
ghost use Rattle.grind_arithmetic_rules.specs.LinearRules.{taken, combined, IsCombine};
ghost use Rattle.grind_differences.specs.Equations.{form_of};
ghost use Rattle.grind_claims.specs.declared.claim.Claim.TheVariants.{AtMost};

use grind_claims::Claim;
use grind_differences::{form_of, is_within_cut};
use grind_linear_forms::{Form, FormRefusal, add_scaled};
use grind_outside::Memory;
use grind_polynomials::Poly;
use std::alloc::Global;

/// combine: the sum of the premises, each so often, divided by a positive number that divides its coefficients; the
/// constant is at most that of the sum divided by the number, rounded up.
///
/// # Errors
/// `Memory` if out of memory.
pub fn is_combine(
    alloc: Global,
    divisor: i128,
    factors: &[i128],
    premises: &[&Claim],
    claim: &Claim,
) -> Result<bool, Memory>
    ensures { IfOk result (λ yes. IsTrue yes ↔ IsCombine divisor factors.now (claims_of premises.now) claim.now) }
{
    let Claim::AtMost(form) = claim else {
        return Ok(false);
    };
    let found = combined(alloc, factors, premises)?;
    let Some(sum) = found else {
        return Ok(false);
    };
    let is = is_within_cut(alloc, &sum, divisor, form)?;
    Ok(is)
}

/// The premises, each so often, added from left to right.
fn combined(alloc: Global, factors: &[i128], premises: &[&Claim]) -> Result<Option<Form>, Memory>
    ensures { IfOk result (λ found. found ≡ combined (number_form (pos 0)) factors.now (claims_of premises.now)) }
{
    let mut sum = Form::number(alloc, 0);
    let mut rest_factors = factors;
    for premise in premises {
        let Some((factor, factors_tail)) = rest_factors.split_first() else {
            return Ok(None);
        };
        let next = with_premise(alloc, &sum, *factor, *premise)?;
        let Some(next) = next else {
            return Ok(None);
        };
        sum = next;
        rest_factors = factors_tail;
    }
    match rest_factors.split_first() {
        None => Ok(Some(sum)),
        Some(_) => Ok(None),
    }
}

/// The sum, and the premise so often.
fn with_premise(
    alloc: Global,
    sum: &Form,
    factor: i128,
    premise: &Claim,
) -> Result<Option<Form>, Memory>
    ensures { IfOk result (λ found. found ≡ option_and_then (λ form. scaled_sum sum.now (pos 1) form factor)
        (taken factor premise.now)) }
{
    match premise {
        Claim::AtMost(form) => with_bound(alloc, sum, factor, form),
        Claim::Zero(poly) => with_equation(alloc, sum, factor, poly),
        _ => Ok(None),
    }
}

/// The sum, and the bound so often, where that is not negative.
fn with_bound(alloc: Global, sum: &Form, factor: i128, form: &Form) -> Result<Option<Form>, Memory>
    ensures { IfOk result (λ found. found ≡ option_and_then (λ form. scaled_sum sum.now (pos 1) form factor)
        (taken factor (AtMost form.now))) }
{
    if factor < 0 {
        return Ok(None);
    }
    let found = with_form(alloc, sum, factor, form)?;
    Ok(found)
}

/// The sum, and the equation so often, where its degree is at most 1.
fn with_equation(
    alloc: Global,
    sum: &Form,
    factor: i128,
    poly: &Poly,
) -> Result<Option<Form>, Memory>
    ensures { IfOk result (λ found. found ≡ option_and_then (λ form. scaled_sum sum.now (pos 1) form factor) (form_of poly.now)) }
{
    let linear = form_of(alloc, poly)?;
    let Some(form) = linear else {
        return Ok(None);
    };
    let found = with_form(alloc, sum, factor, &form)?;
    Ok(found)
}

/// The sum, and the form so often.
fn with_form(alloc: Global, sum: &Form, factor: i128, form: &Form) -> Result<Option<Form>, Memory>
    ensures { IfOk result (λ found. found ≡ scaled_sum sum.now (pos 1) form.now factor) }
{
    match add_scaled(alloc, sum, 1, form, factor) {
        Ok(next) => Ok(Some(next)),
        Err(FormRefusal::Overflow) => Ok(None),
        Err(FormRefusal::Memory) => Err(Memory),
    }
}
