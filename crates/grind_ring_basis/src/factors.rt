//! The factors of a reduction over a basis.
ghost use Rattle.std.specs.Prelude.{IfOk, MatchOption};
ghost use Rattle.grind_normal_forms.specs.declared.factors.Factors.{Factors as FactorsData};
ghost use Rattle.grind_ring_basis.specs.Bases.{IsBasis};
ghost use Rattle.grind_ring_basis.specs.Lines.{AreFactors};

use crate::types::Basis;
use grind_normal_forms::{Factors, factors_of};
use grind_outside::Memory;
use grind_polynomials::{Poly, PolyRefusal};
use std::alloc::Global;

// The factors of the reduction of a polynomial, or None exactly where the reduction or a number in them does not fit.
pub(crate) fn fitting_factors(
    alloc: Global,
    poly: &Poly,
    basis: &Basis,
) -> Result<Option<Factors>, Memory>
    requires { IsBasis basis.now }
    ensures { IfOk result (λ answer. MatchOption answer ((factors : FactorsData) → ¬ AreFactors basis.now poly.now factors)
        (λ factors. AreFactors basis.now poly.now factors)) }
{
    match factors_of(alloc, poly, &basis.elements) {
        Ok(factors) => Ok(Some(factors)),
        Err(PolyRefusal::Overflow) => Ok(None),
        Err(PolyRefusal::Degree) => Ok(None),
        Err(PolyRefusal::Memory) => Err(Memory),
    }
}
