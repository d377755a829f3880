//! S-polynomials within a degree of 16.
ghost use Rattle.std.specs.Prelude.{◌≢◌, ◌<◌, [], IfOk};
ghost use Rattle.grind_ring_basis.specs.Pairs.{Cancels};

use crate::types::{Cancelled, Pair};
use grind_normal_forms::{lead_divisor, s_poly};
use grind_outside::Memory;
use grind_polynomials::{Poly, PolyRefusal};
use std::alloc::Global;

/// The S-polynomial of two polynomials other than 0: each taken so often that the leading terms are the least common
/// multiple, the second taken off the first.
///
/// # Errors
///
/// `Memory` if out of memory.
pub fn s_polynomial(alloc: Global, a: &Poly, b: &Poly) -> Result<Cancelled, Memory>
    requires first { a.now ≢ [] }
    requires second { b.now ≢ [] }
    ensures { IfOk result (λ answer. Cancels a.now b.now answer) }
{
    let divisor = lead_divisor(a, b);
    match s_poly(alloc, a, b) {
        Ok(poly) => Ok(Cancelled::Made(Pair { divisor, poly })),
        Err(PolyRefusal::Memory) => Err(Memory),
        Err(PolyRefusal::Overflow) => Ok(Cancelled::TooLarge),
        Err(PolyRefusal::Degree) => Ok(Cancelled::TooHigh),
    }
}
