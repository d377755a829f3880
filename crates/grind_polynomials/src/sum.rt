//! Products of polynomials, added to others.
ghost use Rattle.std.specs.Prelude.{◌≡◌, ◌+◌, [], length, pos, true, false, Ok, Err, IfOk, OnOk, IsErrOf};
ghost use Rattle.grind_polynomials.specs.declared.poly.PolyRefusal.TheVariants.{Overflow, Degree};
ghost use Rattle.grind_polynomials.specs.Polynomials.{is_over};
ghost use Rattle.grind_polynomials.specs.Running.{terms_of};
ghost use Rattle.grind_polynomials.specs.Sums.{with_multiples, with_product, with_products, with_all_products, sum_product};

use crate::multiples::{Multiplier, add_multiples};
use crate::numbers::product_of;
use crate::poly::{Poly, PolyRefusal, Term, copied};
use crate::running::{Running, add, started, written};
use grind_monomials::product;
use grind_outside::List;
use grind_term_graph::NodeId;
use std::alloc::Global;

/// The polynomial `a` and the product of `q` and `b`, added: each term of `q` in turn times each term of `b` in turn.
///
/// # Errors
///
/// The first refusal on the way decides. Of each product of two terms the degree is judged first (`Degree`, where it is
/// over 16), then the product of the coefficients and then the sum with the coefficient that stands there (`Overflow`,
/// where one does not fit in 128 bits). `Memory` comes where there is none.
pub fn add_product(alloc: Global, a: &Poly, q: &Poly, b: &Poly) -> Result<Poly, PolyRefusal>
    ensures ok { IfOk result (λ sum. sum_product a.now q.now b.now ≡ Ok sum) }
    ensures overflow { IsErrOf result PolyRefusal.Overflow → sum_product a.now q.now b.now ≡ Err Overflow }
    ensures degree { IsErrOf result PolyRefusal.Degree → sum_product a.now q.now b.now ≡ Err Degree }
{
    let mut sum = started(alloc, a.terms())?;
    add_all_products(alloc, q.terms(), b.terms(), &mut sum)?;
    let terms = written(alloc, sum)?;
    Ok(Poly { terms })
}

// The sum of two polynomials.
pub(crate) fn sum(alloc: Global, a: &Poly, b: &Poly) -> Result<Poly, PolyRefusal>
    ensures ok { IfOk result (λ sum. with_multiples false (pos 1) [] b.now a.now ≡ Ok sum) }
    ensures overflow { IsErrOf result PolyRefusal.Overflow → with_multiples false (pos 1) [] b.now a.now ≡ Err Overflow }
    ensures degree { IsErrOf result PolyRefusal.Degree → ⊥ }
{
    let start = copied(alloc, a.terms())?;
    let once = Multiplier {
        minus: false,
        coefficient: 1,
        monomial: &[],
    };
    let terms = add_multiples(alloc, &once, b.terms(), start)?;
    Ok(Poly { terms })
}

// The negation of a polynomial.
pub(crate) fn negation(alloc: Global, a: &Poly) -> Result<Poly, PolyRefusal>
    ensures ok { IfOk result (λ poly. with_multiples true (pos 1) [] a.now [] ≡ Ok poly) }
    ensures overflow { IsErrOf result PolyRefusal.Overflow → with_multiples true (pos 1) [] a.now [] ≡ Err Overflow }
    ensures degree { IsErrOf result PolyRefusal.Degree → ⊥ }
{
    let off = Multiplier {
        minus: true,
        coefficient: 1,
        monomial: &[],
    };
    let terms = add_multiples(alloc, &off, a.terms(), List::new(alloc))?;
    Ok(Poly { terms })
}

// Each product of a term of the one with a term of the other, added in turn.
fn add_all_products(
    alloc: Global,
    qs: &[Term],
    bs: &[Term],
    sum: &mut Running,
) -> Result<(), PolyRefusal>
    ensures ok { OnOk result (with_all_products qs.now bs.now (terms_of sum.old) ≡ Ok (terms_of sum.new)) }
    ensures overflow { IsErrOf result PolyRefusal.Overflow → with_all_products qs.now bs.now (terms_of sum.old) ≡ Err Overflow }
    ensures degree { IsErrOf result PolyRefusal.Degree → with_all_products qs.now bs.now (terms_of sum.old) ≡ Err Degree }
{
    let mut rest = qs;
    while let Some((q, tail)) = rest.split_first() {
        add_products(alloc, q, bs, sum)?;
        rest = tail;
    }
    Ok(())
}

// Each product of a term with one of others, added in turn.
fn add_products(alloc: Global, q: &Term, bs: &[Term], sum: &mut Running) -> Result<(), PolyRefusal>
    ensures ok { OnOk result (with_products q.now bs.now (terms_of sum.old) ≡ Ok (terms_of sum.new)) }
    ensures overflow { IsErrOf result PolyRefusal.Overflow → with_products q.now bs.now (terms_of sum.old) ≡ Err Overflow }
    ensures degree { IsErrOf result PolyRefusal.Degree → with_products q.now bs.now (terms_of sum.old) ≡ Err Degree }
{
    let mut rest = bs;
    while let Some((b, tail)) = rest.split_first() {
        add_one(alloc, q, b, sum)?;
        rest = tail;
    }
    Ok(())
}

// The product of two terms, added.
fn add_one(alloc: Global, q: &Term, b: &Term, sum: &mut Running) -> Result<(), PolyRefusal>
    ensures ok { OnOk result (with_product q.now b.now (terms_of sum.old) ≡ Ok (terms_of sum.new)) }
    ensures overflow { IsErrOf result PolyRefusal.Overflow → with_product q.now b.now (terms_of sum.old) ≡ Err Overflow }
    ensures degree { IsErrOf result PolyRefusal.Degree → with_product q.now b.now (terms_of sum.old) ≡ Err Degree }
{
    if is_over(q.monomial.as_slice(), b.monomial.as_slice()) {
        return Err(PolyRefusal::Degree);
    }
    let Some(number) = product_of(q.coefficient, b.coefficient) else {
        return Err(PolyRefusal::Overflow);
    };
    let monomial = product(alloc, q.monomial.as_slice(), b.monomial.as_slice())?;
    add(sum, number, monomial)?;
    Ok(())
}

// Whether the degrees of two monomials are together over 16.
fn is_over(a: &[NodeId], b: &[NodeId]) -> bool
    ensures { result ≡ is_over (length a.now + length b.now) }
{
    if a.len() > 16 || b.len() > 16 {
        return true;
    }
    a.len() + b.len() > 16
}
