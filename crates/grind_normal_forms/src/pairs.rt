//! The polynomial in which the leading terms of two others cancel.
ghost use Rattle.std.specs.Prelude.{◌≡◌, ◌≢◌, ◌<◌, [], Ok, Err, IfOk, IsErrOf};
ghost use Rattle.grind_polynomials.specs.declared.poly.PolyRefusal.TheVariants.{Overflow, Degree};
ghost use Rattle.grind_normal_forms.specs.Pairs.{IsLeadGcd, IsSPolynomial, lead_multiple};

use crate::numbers::{common_divisor, divided};
use grind_monomials::{least_common_multiple, quotient};
use grind_outside::{List, Memory};
use grind_polynomials::{Multiplier, Poly, PolyRefusal, add_multiples};
use grind_term_graph::NodeId;
use std::alloc::Global;

/// The S-polynomial of two polynomials: each taken so often that the leading terms are the least common multiple, the
/// second taken off the first.
///
/// # Errors
///
/// `Degree` exactly where that multiple has a degree over 16, which is judged first, and `Overflow` exactly where that is
/// not so and a coefficient on the way does not fit in 128 bits. `Memory` comes where there is none.
pub fn s_poly(alloc: Global, a: &Poly, b: &Poly) -> Result<Poly, PolyRefusal>
    requires first { a.now ≢ [] }
    requires second { b.now ≢ [] }
    ensures ok { IfOk result (λ poly. IsSPolynomial a.now b.now (Ok poly)) }
    ensures overflow { IsErrOf result PolyRefusal.Overflow → IsSPolynomial a.now b.now (Err Overflow) }
    ensures degree { IsErrOf result PolyRefusal.Degree → IsSPolynomial a.now b.now (Err Degree) }
{
    let h = lead_divisor(a, b);
    let whole = lead_multiple(alloc, a, b)?;
    if whole.len() > 16 {
        return Err(PolyRefusal::Degree);
    }
    let left = quotient(alloc, whole.as_slice(), a.lead_monomial())?;
    let right = quotient(alloc, whole.as_slice(), b.lead_monomial())?;
    let first = divided(b.lead_coefficient(), h);
    let second = divided(a.lead_coefficient(), h);
    let added = Multiplier {
        minus: false,
        coefficient: first,
        monomial: left.as_slice(),
    };
    let taken = Multiplier {
        minus: true,
        coefficient: second,
        monomial: right.as_slice(),
    };
    let start = add_multiples(alloc, &added, a.terms(), List::new(alloc))?;
    let terms = add_multiples(alloc, &taken, b.terms(), start)?;
    Ok(Poly { terms })
}

// The least common multiple of the leading monomials.
fn lead_multiple(alloc: Global, a: &Poly, b: &Poly) -> Result<List<NodeId>, Memory>
    ensures { IfOk result (λ whole. whole ≡ lead_multiple a.now b.now) }
{
    let whole = least_common_multiple(alloc, a.lead_monomial(), b.lead_monomial())?;
    Ok(whole)
}

/// The greatest common divisor of the leading coefficients.
pub fn lead_divisor(a: &Poly, b: &Poly) -> u128
    requires { a.now ≢ [] }
    ensures divisor { IsLeadGcd a.now b.now result }
    ensures positive { 0 < result }
{
    common_divisor(a.lead_coefficient(), b.lead_coefficient())
}
