//! A multiple of a monomial more in a sum of terms.
ghost use Rattle.std.specs.Prelude.{◌≡◌, ◌++◌, [], ◌∷◌, reverse, Ok, Err, Some, None, IfOk, IsErrOf};
ghost use Rattle.std.specs.Option.{IsSomeAnd};
ghost use Rattle.grind_polynomials.specs.declared.poly.PolyRefusal.TheVariants.{Overflow, Degree};
ghost use Rattle.grind_polynomials.specs.Rows.{AreAbove, ArePassed, all_of};
ghost use Rattle.grind_polynomials.specs.Sums.{signed, in_front, with_more};

use crate::numbers::sum_of;
use crate::poly::{PolyRefusal, Term};
use grind_monomials::{Place, compare};
use grind_outside::{List, Memory};
use grind_term_graph::NodeId;
use std::alloc::Global;

// The terms of a sum, in two parts.
#[derive(Drop)]
pub(crate) struct Parts {
    // The first ones, which are done.
    pub(crate) done: List<Term>,
    // Those after them, last first.
    pub(crate) rest: List<Term>,
}

/// The terms with a multiple of a monomial more, or less.
///
/// # Errors
///
/// `Overflow` exactly where the coefficient does not fit in 128 bits then. `Degree` never comes, and `Memory` comes where there
/// is none.
pub fn add_monomial(
    alloc: Global,
    minus: bool,
    coefficient: i128,
    monomial: List<NodeId>,
    terms: List<Term>,
) -> Result<List<Term>, PolyRefusal>
    ensures ok { IfOk result (λ all. with_more (signed minus coefficient) monomial terms ≡ Ok all) }
    ensures overflow { IsErrOf result PolyRefusal.Overflow → with_more (signed minus coefficient) monomial terms ≡ Err Overflow }
    ensures degree { IsErrOf result PolyRefusal.Degree → ⊥ }
{
    let start = parts_of(alloc, terms)?;
    let parts = put_behind(minus, coefficient, monomial, start)?;
    let all = joined(parts)?;
    Ok(all)
}

// The parts of the terms, of which none is done.
pub(crate) fn parts_of(alloc: Global, terms: List<Term>) -> Result<Parts, Memory>
    ensures done { IfOk result (λ parts. parts.done ≡ []) }
    ensures value { IfOk result (λ parts. all_of parts ≡ terms) }
{
    let rest = reversed(alloc, terms)?;
    Ok(Parts {
        done: List::new(alloc),
        rest,
    })
}

// All terms of the parts.
pub(crate) fn joined(parts: Parts) -> Result<List<Term>, Memory>
    ensures { IfOk result (λ all. all ≡ all_of parts) }
{
    let all = with_others(parts.done, parts.rest)?;
    Ok(all)
}

// The parts with a multiple of a monomial more, or less. What stands above the monomial is done then, and it too.
pub(crate) fn put_behind(
    minus: bool,
    coefficient: i128,
    monomial: List<NodeId>,
    parts: Parts,
) -> Result<Parts, PolyRefusal>
    requires { AreAbove monomial parts.done }
    ensures ok { IfOk result (λ all. with_more (signed minus coefficient) monomial (all_of parts) ≡ Ok (all_of all)) }
    ensures passed { IfOk result (λ all. ArePassed monomial all.done) }
    ensures overflow { IsErrOf result PolyRefusal.Overflow → with_more (signed minus coefficient) monomial (all_of parts) ≡ Err Overflow }
    ensures degree { IsErrOf result PolyRefusal.Degree → ⊥ }
{
    let mut done = parts.done;
    let mut rest = parts.rest;
    while let Some(x) = rest.pop() {
        match compare(x.monomial.as_slice(), monomial.as_slice()) {
            Place::Above => {
                done.push(x)?;
            }
            Place::Same => {
                let sum = sum_of(minus, x.coefficient, coefficient);
                let all = closed(done, sum, monomial, rest)?;
                return Ok(all);
            }
            Place::Below => {
                rest.push(x)?;
                let all = closed(done, sum_of(minus, 0, coefficient), monomial, rest)?;
                return Ok(all);
            }
        }
    }
    let all = closed(done, sum_of(minus, 0, coefficient), monomial, rest)?;
    Ok(all)
}

// The terms that are done, a term after them where its coefficient is defined and not 0, and the others, last first.
fn closed(
    done: List<Term>,
    coefficient: Option<i128>,
    monomial: List<NodeId>,
    others: List<Term>,
) -> Result<Parts, PolyRefusal>
    ensures done { IfOk result (λ all. IsSomeAnd coefficient (λ c. all.done ≡ done ++ in_front c monomial [])) }
    ensures rest { IfOk result (λ all. all.rest ≡ others) }
    ensures overflow { IsErrOf result PolyRefusal.Overflow → coefficient ≡ None }
    ensures degree { IsErrOf result PolyRefusal.Degree → ⊥ }
{
    let Some(coefficient) = coefficient else {
        return Err(PolyRefusal::Overflow);
    };
    let done = with_term(done, coefficient, monomial)?;
    Ok(Parts { done, rest: others })
}

// The terms, and one after them where its coefficient is not 0.
fn with_term(
    terms: List<Term>,
    coefficient: i128,
    monomial: List<NodeId>,
) -> Result<List<Term>, Memory>
    ensures { IfOk result (λ all. all ≡ terms ++ in_front coefficient monomial []) }
{
    let mut all = terms;
    if coefficient == 0 {
        return Ok(all);
    }
    all.push(Term {
        coefficient,
        monomial,
    })?;
    Ok(all)
}

// The terms, and others after them, last first.
fn with_others(terms: List<Term>, others: List<Term>) -> Result<List<Term>, Memory>
    ensures { IfOk result (λ all. all ≡ terms ++ reverse others) }
{
    let mut all = terms;
    let mut rest = others;
    while let Some(x) = rest.pop() {
        all.push(x)?;
    }
    Ok(all)
}

// The terms, last first.
fn reversed(alloc: Global, terms: List<Term>) -> Result<List<Term>, Memory>
    ensures { IfOk result (λ all. all ≡ reverse terms) }
{
    let all = with_others(List::new(alloc), terms)?;
    Ok(all)
}
