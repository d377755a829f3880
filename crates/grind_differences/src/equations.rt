//! Polynomials as equations: multiples of them, numbers, and those that are linear forms.
ghost use Rattle.std.specs.Prelude.{IsTrue, ◌↔◌, ◌≡◌, ◌*ℤ◌, All, Some, IfOk};
ghost use Rattle.grind_polynomials.specs.declared.poly.Term.{Term as TermData};
ghost use Rattle.grind_polynomials.specs.Polynomials.{IsPoly};
ghost use Rattle.grind_differences.specs.Equations.{multiple_term, multiple_poly, IsOtherThanZero, form_of};

use grind_linear_forms::{Form, Part};
use grind_outside::{List, Memory};
use grind_polynomials::{Poly, Term};
use grind_term_graph::NodeId;
use std::alloc::Global;

/// Whether the two polynomials are the same.
pub fn is_same_poly(one: &Poly, other: &Poly) -> bool
    ensures { IsTrue result ↔ (one.now ≡ other.now) }
{
    are_same_terms(one.terms(), other.terms())
}

/// Whether the terms are the same.
fn are_same_terms(terms: &[Term], others: &[Term]) -> bool
    ensures { IsTrue result ↔ (terms.now ≡ others.now) }
{
    let mut these = terms;
    let mut those = others;
    while let Some((term, these_tail)) = these.split_first() {
        let Some((other, those_tail)) = those.split_first() else {
            return false;
        };
        if !is_same_term(term, other) {
            return false;
        }
        these = these_tail;
        those = those_tail;
    }
    those.is_empty()
}

/// Whether the two terms are the same.
fn is_same_term(term: &Term, other: &Term) -> bool
    ensures { IsTrue result ↔ (term.now ≡ other.now) }
{
    term.coefficient == other.coefficient
        && are_same_nodes(term.monomial.as_slice(), other.monomial.as_slice())
}

/// Whether the nodes are the same.
fn are_same_nodes(nodes: &[NodeId], others: &[NodeId]) -> bool
    ensures { IsTrue result ↔ (nodes.now ≡ others.now) }
{
    let mut these = nodes;
    let mut those = others;
    while let Some((node, these_tail)) = these.split_first() {
        let Some((other, those_tail)) = those.split_first() else {
            return false;
        };
        if *node != *other {
            return false;
        }
        these = these_tail;
        those = those_tail;
    }
    those.is_empty()
}

/// Whether the first polynomial is the second, taken k times term by term.
pub fn is_multiple(sum: &Poly, k: i128, rest: &Poly) -> bool
    ensures { IsTrue result ↔ (sum.now ≡ multiple_poly k rest.now) }
{
    are_multiples(sum.terms(), k, rest.terms())
}

/// Whether the first terms are the second, each taken k times.
fn are_multiples(terms: &[Term], k: i128, others: &[Term]) -> bool
    ensures { IsTrue result ↔ (terms.now ≡ multiple_poly k others.now) }
{
    let mut these = terms;
    let mut those = others;
    while let Some((term, these_tail)) = these.split_first() {
        let Some((other, those_tail)) = those.split_first() else {
            return false;
        };
        if !is_multiple_term(term, k, other) {
            return false;
        }
        these = these_tail;
        those = those_tail;
    }
    those.is_empty()
}

/// Whether the first term is the second, taken k times.
fn is_multiple_term(term: &Term, k: i128, other: &Term) -> bool
    ensures { IsTrue result ↔ (term.now ≡ multiple_term k other.now) }
{
    is_product(term.coefficient, k, other.coefficient)
        && are_same_nodes(term.monomial.as_slice(), other.monomial.as_slice())
}

/// Whether the first number is the product of the others.
fn is_product(product: i128, k: i128, number: i128) -> bool
    ensures { IsTrue result ↔ (product ≡ k *ℤ number) }
{
    match k.checked_mul(number) {
        Some(exact) => exact == product,
        None => false,
    }
}

/// Whether the polynomial is a number other than 0.
pub fn is_other_than_zero(poly: &Poly) -> bool
    ensures { IsTrue result ↔ IsOtherThanZero poly.now }
{
    let [term] = poly.terms() else {
        return false;
    };
    term.monomial.as_slice().is_empty() && term.coefficient != 0
}

/// The polynomial as a linear form, where its degree is at most 1.
///
/// # Errors
/// `Memory` if out of memory.
pub fn form_of(alloc: Global, poly: &Poly) -> Result<Option<Form>, Memory>
    ensures { IfOk result (λ found. found ≡ form_of poly.now) }
{
    let form = form_of_terms(alloc, poly.terms())?;
    Ok(form)
}

/// The terms of a polynomial as a linear form, where its degree is at most 1. A term without nodes is the last one.
fn form_of_terms(alloc: Global, terms: &[Term]) -> Result<Option<Form>, Memory>
    requires { IsPoly terms.now }
    ensures { IfOk result (λ found. found ≡ form_of terms.now) }
{
    let mut parts = List::new(alloc);
    let mut rest = terms;
    while let Some((term, tail)) = rest.split_first() {
        let Some((node, more)) = term.monomial.as_slice().split_first() else {
            return Ok(Some(Form {
                parts,
                constant: term.coefficient,
            }));
        };
        if !more.is_empty() {
            return Ok(None);
        }
        parts.push(Part {
            coefficient: term.coefficient,
            node: *node,
        })?;
        rest = tail;
    }
    Ok(Some(Form { parts, constant: 0 }))
}
