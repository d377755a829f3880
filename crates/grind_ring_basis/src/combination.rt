//! The line over premises in order, judged by the rule `ideal`.
ghost use Rattle.std.specs.Prelude.{◌≡◌, ◌↔◌, ◌≢◌, [], pos, None, Some, IfOk, IsTrue, MatchOption};
ghost use Rattle.std.specs.Option.{option_and_then};
ghost use Rattle.grind_polynomials.specs.Readings.{answered};
ghost use Rattle.grind_polynomials.specs.Sums.{sum_product};
ghost use Rattle.grind_differences.specs.Equations.{multiple_poly};
ghost use Rattle.grind_arithmetic_rules.specs.PolyRules.{gathered, CoefficientsFit};
ghost use Rattle.grind_ring_basis.specs.Shares.{factors_in, claims_in, Sums, IsAllowed, IsLineOver};

use crate::order::Ordered;
use crate::types::Combination;
use grind_differences::is_multiple;
use grind_outside::{List, Memory};
use grind_polynomials::{Poly, PolyRefusal, Term, add_product};
use std::alloc::Global;

// Premises that were added up.
#[derive(Drop)]
pub(crate) struct Summed {
    pub(crate) factors: List<Poly>,
    pub(crate) from: List<u32>,
    pub(crate) sum: Poly,
}

// The line over these premises that claims that the polynomial is 0, if the rule allows it.
pub(crate) fn combination(
    alloc: Global,
    divisor: i128,
    premises: Ordered,
    rest: &Poly,
) -> Result<Option<Combination>, Memory>
    ensures { IfOk result (λ answer. MatchOption answer
        (¬ IsAllowed divisor premises.entries rest.now)
        (λ line. IsLineOver divisor premises.entries rest.now line)) }
{
    let found = added_up(alloc, premises)?;
    let Some(made) = found else {
        return Ok(None);
    };
    if !is_so_often(divisor, &made.sum, rest) {
        return Ok(None);
    }
    let Summed {
        factors,
        from,
        sum: _,
    } = made;
    Ok(Some(Combination {
        divisor,
        factors,
        from,
    }))
}

// Whether the sum is the polynomial so often, and not 0 times.
fn is_so_often(divisor: i128, sum: &Poly, rest: &Poly) -> bool
    ensures exact { IsTrue result ↔ ((divisor ≢ pos 0) × (sum.now ≡ multiple_poly divisor rest.now)) }
    ensures fits { CoefficientsFit rest.now }
{
    read_coefficients(rest.terms());
    if divisor == 0 {
        return false;
    }
    is_multiple(sum, divisor, rest)
}

// Reads each coefficient: it is a number of 128 bits.
fn read_coefficients(terms: &[Term])
    ensures { CoefficientsFit terms.now }
{
    let mut rest = terms;
    while let Some((term, tail)) = rest.split_first() {
        let _coefficient = term.coefficient;
        rest = tail;
    }
}

// The premises, each times its factor, added in order; or None where a number or a degree on the way is too great.
fn added_up(alloc: Global, premises: Ordered) -> Result<Option<Summed>, Memory>
    ensures { IfOk result (λ answer. MatchOption answer
        (gathered [] (factors_in premises.entries) (claims_in premises.entries) ≡ None)
        (λ made. Sums premises.entries made.factors made.from made.sum)) }
{
    let mut factors = List::new(alloc);
    let mut from = List::new(alloc);
    let mut sum = Poly::zero(alloc);
    let mut rest = premises;
    while let Some((post, one)) = rest.pop_first() {
        let next = with_product(alloc, &sum, &one.factor, &one.poly)?;
        let Some(next) = next else {
            return Ok(None);
        };
        sum = next;
        from.push(post)?;
        factors.push(one.factor)?;
    }
    Ok(Some(Summed { factors, from, sum }))
}

// The sum and a product, where each number and each degree on the way is small enough.
pub(crate) fn with_product(
    alloc: Global,
    sum: &Poly,
    factor: &Poly,
    poly: &Poly,
) -> Result<Option<Poly>, Memory>
    ensures { IfOk result (λ found. found ≡ answered (sum_product sum.now factor.now poly.now)) }
{
    match add_product(alloc, sum, factor, poly) {
        Ok(next) => Ok(Some(next)),
        Err(PolyRefusal::Overflow) => Ok(None),
        Err(PolyRefusal::Degree) => Ok(None),
        Err(PolyRefusal::Memory) => Err(Memory),
    }
}
