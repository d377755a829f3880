//! Normal forms over a basis.
ghost use Rattle.std.specs.Prelude.{IfOk, MatchOption};
ghost use Rattle.grind_ring_basis.specs.Bases.{IsBasis, HasNormalForm, Outgrows};

use crate::types::Basis;
use grind_normal_forms::{Reduced, normal};
use grind_outside::Memory;
use grind_polynomials::{Poly, PolyRefusal};
use std::alloc::Global;

/// The normal form of a polynomial over a basis, or None exactly where a number on the way to it does not fit in 128 bits.
///
/// # Errors
///
/// `Memory` if out of memory.
pub fn normal_form(alloc: Global, poly: &Poly, basis: &Basis) -> Result<Option<Reduced>, Memory>
    requires { IsBasis basis.now }
    ensures { IfOk result (λ answer. MatchOption answer (Outgrows basis.now poly.now) (λ normal. HasNormalForm basis.now poly.now normal)) }
{
    match normal(alloc, poly, &basis.elements) {
        Ok(normal) => Ok(Some(normal)),
        Err(PolyRefusal::Memory) => Err(Memory),
        Err(_) => Ok(None),
    }
}
