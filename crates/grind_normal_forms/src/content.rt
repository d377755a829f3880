//! The greatest common divisor of the factor and the coefficients of a reduction.
ghost use Rattle.std.specs.Prelude.{◌≡◌, ◌≢◌, ◌<◌, pos, IfOk, IsErrOf};
ghost use Rattle.grind_polynomials.specs.declared.poly.PolyRefusal.TheVariants.{Overflow, Degree};
ghost use Rattle.grind_normal_forms.specs.Reduction as reduction;

use crate::numbers::{common_divisor, divided, gcd};
use crate::reduction::Reduced;
use crate::scaling::with_coefficient;
use grind_outside::List;
use grind_polynomials::{PolyRefusal, Term};
use std::alloc::Global;

// The greatest number that divides the factor and each coefficient.
pub(crate) fn content_of(made: &Reduced) -> u128
    requires { made.now.factor ≢ pos 0 }
    ensures content { reduction.IsContent made.now result }
    ensures positive { 0 < result }
{
    let mut all = common_divisor(made.factor, 0);
    let mut rest = made.rest.terms();
    while let Some((term, tail)) = rest.split_first() {
        all = gcd(all, term.coefficient.unsigned_abs());
        rest = tail;
    }
    all
}

// The terms with their coefficients divided.
pub(crate) fn divided_terms(
    alloc: Global,
    content: u128,
    terms: &[Term],
) -> Result<List<Term>, PolyRefusal>
    requires { 0 < content }
    ensures ok { IfOk result (λ all. all ≡ reduction.terms_by content terms.now) }
    ensures overflow { IsErrOf result PolyRefusal.Overflow → ⊥ }
    ensures degree { IsErrOf result PolyRefusal.Degree → ⊥ }
{
    let mut all = List::new(alloc);
    let mut rest = terms;
    while let Some((term, tail)) = rest.split_first() {
        let quotient = divided(term.coefficient, content);
        all.push(with_coefficient(alloc, quotient, term)?)?;
        rest = tail;
    }
    Ok(all)
}
