//! Multiples of polynomials by numbers.
ghost use Rattle.std.specs.Prelude.{◌≡◌, Ok, Err, IfOk, IsErrOf};
ghost use Rattle.grind_polynomials.specs.declared.poly.PolyRefusal.TheVariants.{Overflow};
ghost use Rattle.grind_polynomials.specs.Polynomials.{term_of};
ghost use Rattle.grind_normal_forms.specs.Reduction.{scaled};

use grind_outside::List;
use grind_polynomials::{PolyRefusal, Term, product_of};
use std::alloc::Global;

// The terms, each taken so often.
pub(crate) fn scale(alloc: Global, number: i128, terms: &[Term]) -> Result<List<Term>, PolyRefusal>
    ensures ok { IfOk result (λ all. scaled number terms.now ≡ Ok all) }
    ensures overflow { IsErrOf result PolyRefusal.Overflow → scaled number terms.now ≡ Err Overflow }
    ensures degree { IsErrOf result PolyRefusal.Degree → ⊥ }
{
    let mut all = List::new(alloc);
    let mut rest = terms;
    while let Some((term, tail)) = rest.split_first() {
        let Some(coefficient) = product_of(number, term.coefficient) else {
            return Err(PolyRefusal::Overflow);
        };
        all.push(with_coefficient(alloc, coefficient, term)?)?;
        rest = tail;
    }
    Ok(all)
}

// The term with another coefficient.
pub(crate) fn with_coefficient(
    alloc: Global,
    coefficient: i128,
    term: &Term,
) -> Result<Term, PolyRefusal>
    ensures ok { IfOk result (λ made. made ≡ term_of coefficient term.now.monomial) }
    ensures overflow { IsErrOf result PolyRefusal.Overflow → ⊥ }
    ensures degree { IsErrOf result PolyRefusal.Degree → ⊥ }
{
    let mut monomial = List::new(alloc);
    monomial.extend(term.monomial.as_slice())?;
    Ok(Term {
        coefficient,
        monomial,
    })
}
