//! The rules over polynomials: poly, equal and ideal.
ghost use Rattle.std.specs.Prelude.{IsTrue, ◌↔◌, ◌≡◌, ◌<◌, [], Some, length, All, IfOk};
ghost use Rattle.std.specs.Option.{option_and_then};
ghost use Rattle.grind_polynomials.specs.Sums.{sum_product};
ghost use Rattle.grind_polynomials.specs.Readings.{answered};
ghost use Rattle.grind_claims.specs.Claims.{claims_of};
ghost use Rattle.grind_arithmetic_rules.specs.PolyRules.{IsPolyRule, IsEqual, zero_of, gathered, IsIdeal};

use crate::numbers::coefficients_fit;
use grind_claims::Claim;
use grind_claims::premises::only_premise;
use grind_differences::{is_multiple, is_poly_difference};
use grind_outside::Memory;
use grind_polynomials::{Poly, PolyRefusal, add_product};
use grind_term_graph::TermTable;
use std::alloc::Global;

/// poly: the polynomial of two whole numbers that are equal, of the one less that of the other, is 0.
///
/// # Errors
/// `Memory` if out of memory.
pub fn is_poly_rule(
    alloc: Global,
    terms: &TermTable,
    premises: &[&Claim],
    claim: &Claim,
) -> Result<bool, Memory>
    ensures { IfOk result (λ yes. IsTrue yes ↔ IsPolyRule terms.now.nodes (claims_of premises.now) claim.now) }
{
    let Some(premise) = only_premise(premises) else {
        return Ok(false);
    };
    let Claim::Same(a, b) = premise else {
        return Ok(false);
    };
    let Claim::Zero(poly) = claim else {
        return Ok(false);
    };
    let is = is_poly_difference(alloc, terms, *a, *b, poly)?;
    Ok(is)
}

/// equal: two whole numbers are equal where the polynomial of the one less that of the other is 0.
///
/// # Errors
/// `Memory` if out of memory.
pub fn is_equal(
    alloc: Global,
    terms: &TermTable,
    premises: &[&Claim],
    claim: &Claim,
) -> Result<bool, Memory>
    ensures { IfOk result (λ yes. IsTrue yes ↔ IsEqual terms.now.nodes (claims_of premises.now) claim.now) }
{
    let Some(premise) = only_premise(premises) else {
        return Ok(false);
    };
    let Claim::Zero(poly) = premise else {
        return Ok(false);
    };
    let Claim::Same(a, b) = claim else {
        return Ok(false);
    };
    let is = is_poly_difference(alloc, terms, *a, *b, poly)?;
    Ok(is)
}

/// ideal: a polynomial is 0 where a number other than 0, times it, is the sum of premises that are 0, each times its factor.
///
/// # Errors
/// `Memory` if out of memory.
pub fn is_ideal(
    alloc: Global,
    divisor: i128,
    factors: &[Poly],
    premises: &[&Claim],
    claim: &Claim,
) -> Result<bool, Memory>
    ensures { IfOk result (λ yes. IsTrue yes ↔ IsIdeal divisor factors.now (claims_of premises.now) claim.now) }
{
    let Claim::Zero(rest) = claim else {
        return Ok(false);
    };
    if divisor == 0 {
        return Ok(false);
    }
    let found = gathered(alloc, factors, premises)?;
    let Some(sum) = found else {
        return Ok(false);
    };
    Ok(is_multiple(&sum, divisor, rest) && coefficients_fit(rest))
}

/// The premises, each times its factor, added from left to right.
fn gathered(alloc: Global, factors: &[Poly], premises: &[&Claim]) -> Result<Option<Poly>, Memory>
    ensures { IfOk result (λ found. found ≡ gathered [] factors.now (claims_of premises.now)) }
{
    let mut sum = Poly::zero(alloc);
    let mut rest_factors = factors;
    for premise in premises {
        let Some((factor, factors_tail)) = rest_factors.split_first() else {
            return Ok(None);
        };
        let next = with_premise(alloc, &sum, factor, *premise)?;
        let Some(next) = next else {
            return Ok(None);
        };
        sum = next;
        rest_factors = factors_tail;
    }
    match rest_factors.split_first() {
        None => Ok(Some(sum)),
        Some(_) => Ok(None),
    }
}

/// The sum, and what the premise says is 0, times the factor.
fn with_premise(
    alloc: Global,
    sum: &Poly,
    factor: &Poly,
    premise: &Claim,
) -> Result<Option<Poly>, Memory>
    ensures { IfOk result (λ found. found ≡ option_and_then (λ poly. answered (sum_product sum.now factor.now poly))
        (zero_of premise.now)) }
{
    let Claim::Zero(poly) = premise else {
        return Ok(None);
    };
    match add_product(alloc, sum, factor, poly) {
        Ok(next) => Ok(Some(next)),
        Err(PolyRefusal::Overflow) => Ok(None),
        Err(PolyRefusal::Degree) => Ok(None),
        Err(PolyRefusal::Memory) => Err(Memory),
    }
}
