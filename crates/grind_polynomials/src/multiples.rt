//! Multiples of terms, added to others or taken off.
ghost use Rattle.std.specs.Prelude.{◌≡◌, Ok, Err, IfOk, IsErrOf};
ghost use Rattle.grind_polynomials.specs.declared.poly.PolyRefusal.TheVariants.{Overflow, Degree};
ghost use Rattle.grind_monomials.specs.Monomials.{IsMonomial, product};
ghost use Rattle.grind_polynomials.specs.Polynomials.{IsPoly};
ghost use Rattle.grind_polynomials.specs.Rows.{AreAbove, ArePassed, all_of};
ghost use Rattle.grind_polynomials.specs.Sums.{with_multiple, with_multiples};

use crate::numbers::product_of;
use crate::poly::{PolyRefusal, Term};
use crate::put::{Parts, joined, parts_of, put_behind};
use grind_monomials::product;
use grind_outside::List;
use grind_term_graph::NodeId;
use std::alloc::Global;

/// By what terms are multiplied: a number times a monomial, and whether the products are taken off.
#[derive(Drop)]
pub struct Multiplier<'a> {
    /// Whether the products are taken off.
    pub minus: bool,
    /// The number.
    pub coefficient: i128,
    /// The monomial: its atoms, which rise.
    pub monomial: &'a [NodeId],
}

/// Each product of a coefficient and a monomial with one of the terms, added in turn or taken off.
///
/// # Errors
///
/// `Overflow` exactly where the first number that does not fit in 128 bits is met. `Degree` never comes, and `Memory` comes
/// where there is none.
pub fn add_multiples(
    alloc: Global,
    by: &Multiplier<'_>,
    bs: &[Term],
    terms: List<Term>,
) -> Result<List<Term>, PolyRefusal>
    requires monomial { IsMonomial by.now.monomial.now }
    requires poly { IsPoly bs.now }
    ensures ok { IfOk result (λ all. with_multiples by.now.minus by.now.coefficient by.now.monomial.now bs.now terms ≡ Ok all) }
    ensures overflow { IsErrOf result PolyRefusal.Overflow → with_multiples by.now.minus by.now.coefficient by.now.monomial.now bs.now terms ≡ Err Overflow }
    ensures degree { IsErrOf result PolyRefusal.Degree → ⊥ }
{
    let mut parts = parts_of(alloc, terms)?;
    let mut rest = bs;
    while let Some((b, tail)) = rest.split_first() {
        parts = add_multiple(alloc, by, b, parts)?;
        rest = tail;
    }
    let all = joined(parts)?;
    Ok(all)
}

// The product of a coefficient and a monomial with a term, added to parts of a sum or taken off, and done.
pub(crate) fn add_multiple(
    alloc: Global,
    by: &Multiplier<'_>,
    b: &Term,
    parts: Parts,
) -> Result<Parts, PolyRefusal>
    requires { AreAbove (product by.now.monomial.now b.now.monomial) parts.done }
    ensures ok { IfOk result (λ all. with_multiple by.now.minus by.now.coefficient by.now.monomial.now b.now (all_of parts) ≡ Ok (all_of all)) }
    ensures passed { IfOk result (λ all. ArePassed (product by.now.monomial.now b.now.monomial) all.done) }
    ensures overflow { IsErrOf result PolyRefusal.Overflow → with_multiple by.now.minus by.now.coefficient by.now.monomial.now b.now (all_of parts) ≡ Err Overflow }
    ensures degree { IsErrOf result PolyRefusal.Degree → ⊥ }
{
    let Some(number) = product_of(by.coefficient, b.coefficient) else {
        return Err(PolyRefusal::Overflow);
    };
    let whole = product(alloc, by.monomial, b.monomial.as_slice())?;
    let all = put_behind(by.minus, number, whole, parts)?;
    Ok(all)
}
