//! The readings of two terms, one less the other, as linear forms and as polynomials.
ghost use Rattle.std.specs.Prelude.{IsTrue, ◌↔◌, ◌≡◌, Some, IfOk, pos, negsuc};
ghost use Rattle.grind_term_graph.specs.Terms.{int, sort_at};
ghost use Rattle.grind_linear_forms.specs.Sums.{scaled_sum};
ghost use Rattle.grind_differences.specs.Differences.{reading, difference, IsDifferencePlus, IsDifferenceOver, AreApartByReading, poly_reading, less_poly, poly_difference};

use crate::bounds::{is_above, is_at_least, is_plus_one, is_same_form};
use crate::equations::is_same_poly;
use grind_linear_forms::{Form, FormRefusal, add_scaled, linear_of};
use grind_outside::Memory;
use grind_polynomials::{Poly, PolyRefusal, add_product, poly_of};
use grind_term_graph::{NodeId, SortId, TermTable};
use std::alloc::Global;

/// Whether the node is a whole number.
pub fn is_number(terms: &TermTable, node: NodeId) -> bool
    ensures { IsTrue result ↔ (sort_at terms.now.nodes node ≡ Some int) }
{
    node.number() < terms.len() && terms.sort(node) == SortId::INT
}

/// The reading of a whole number, where it is defined.
fn reading(alloc: Global, terms: &TermTable, node: NodeId) -> Result<Option<Form>, Memory>
    ensures { IfOk result (λ found. found ≡ reading terms.now.nodes node) }
{
    if !is_number(terms, node) {
        return Ok(None);
    }
    match linear_of(alloc, terms, node) {
        Ok(form) => Ok(Some(form)),
        Err(FormRefusal::Overflow) => Ok(None),
        Err(FormRefusal::Memory) => Err(Memory),
    }
}

/// The reading of the first node less that of the second, where it is defined.
///
/// # Errors
/// `Memory` if out of memory.
pub fn difference(
    alloc: Global,
    terms: &TermTable,
    a: NodeId,
    b: NodeId,
) -> Result<Option<Form>, Memory>
    ensures { IfOk result (λ found. found ≡ difference terms.now.nodes a b) }
{
    let first = reading(alloc, terms, a)?;
    let Some(left) = first else {
        return Ok(None);
    };
    let second = reading(alloc, terms, b)?;
    let Some(right) = second else {
        return Ok(None);
    };
    let found = less(alloc, &left, &right)?;
    Ok(found)
}

/// The first form less the second, where it is defined.
pub(crate) fn less(alloc: Global, left: &Form, right: &Form) -> Result<Option<Form>, Memory>
    ensures { IfOk result (λ found. found ≡ scaled_sum left.now (pos 1) right.now (negsuc 0)) }
{
    match add_scaled(alloc, left, 1, right, -1) {
        Ok(form) => Ok(Some(form)),
        Err(FormRefusal::Overflow) => Ok(None),
        Err(FormRefusal::Memory) => Err(Memory),
    }
}

/// Whether the form is the reading of the first less that of the second.
///
/// # Errors
/// `Memory` if out of memory.
pub fn is_difference(
    alloc: Global,
    terms: &TermTable,
    a: NodeId,
    b: NodeId,
    form: &Form,
) -> Result<bool, Memory>
    ensures { IfOk result (λ yes. IsTrue yes ↔ (difference terms.now.nodes a b ≡ Some form.now)) }
{
    let found = difference(alloc, terms, a, b)?;
    let Some(base) = found else {
        return Ok(false);
    };
    Ok(is_same_form(&base, form))
}

/// Whether the form is that and 1.
///
/// # Errors
/// `Memory` if out of memory.
pub fn is_difference_plus_one(
    alloc: Global,
    terms: &TermTable,
    a: NodeId,
    b: NodeId,
    form: &Form,
) -> Result<bool, Memory>
    ensures { IfOk result (λ yes. IsTrue yes ↔ IsDifferencePlus terms.now.nodes a b (pos 1) form.now) }
{
    let found = difference(alloc, terms, a, b)?;
    let Some(base) = found else {
        return Ok(false);
    };
    Ok(is_plus_one(&base, form))
}

/// Whether the form is that and a number that is not negative.
///
/// # Errors
/// `Memory` if out of memory.
pub fn is_difference_or_more(
    alloc: Global,
    terms: &TermTable,
    a: NodeId,
    b: NodeId,
    form: &Form,
) -> Result<bool, Memory>
    ensures { IfOk result (λ yes. IsTrue yes ↔ IsDifferenceOver terms.now.nodes a b (pos 0) form.now) }
{
    let found = difference(alloc, terms, a, b)?;
    let Some(base) = found else {
        return Ok(false);
    };
    Ok(is_at_least(&base, form))
}

/// Whether the form is that and a number of at least 1.
///
/// # Errors
/// `Memory` if out of memory.
pub fn is_more_than_difference(
    alloc: Global,
    terms: &TermTable,
    a: NodeId,
    b: NodeId,
    form: &Form,
) -> Result<bool, Memory>
    ensures { IfOk result (λ yes. IsTrue yes ↔ IsDifferenceOver terms.now.nodes a b (pos 1) form.now) }
{
    let found = difference(alloc, terms, a, b)?;
    let Some(base) = found else {
        return Ok(false);
    };
    Ok(is_above(&base, form))
}

/// Whether the readings of the two differ by a number other than 0.
///
/// # Errors
/// `Memory` if out of memory.
pub fn are_apart_by_reading(
    alloc: Global,
    terms: &TermTable,
    a: NodeId,
    b: NodeId,
) -> Result<bool, Memory>
    ensures { IfOk result (λ yes. IsTrue yes ↔ AreApartByReading terms.now.nodes a b) }
{
    let found = difference(alloc, terms, a, b)?;
    let Some(form) = found else {
        return Ok(false);
    };
    Ok(form.parts().is_empty() && form.constant() != 0)
}

/// The polynomial of a whole number, where it is defined.
fn poly_reading(alloc: Global, terms: &TermTable, node: NodeId) -> Result<Option<Poly>, Memory>
    ensures { IfOk result (λ found. found ≡ poly_reading terms.now.nodes node) }
{
    if !is_number(terms, node) {
        return Ok(None);
    }
    match poly_of(alloc, terms, node) {
        Ok(poly) => Ok(Some(poly)),
        Err(PolyRefusal::Overflow) => Ok(None),
        Err(PolyRefusal::Degree) => Ok(None),
        Err(PolyRefusal::Memory) => Err(Memory),
    }
}

/// The polynomial of the first node less that of the second, where it is defined.
///
/// # Errors
/// `Memory` if out of memory.
pub fn poly_difference(
    alloc: Global,
    terms: &TermTable,
    a: NodeId,
    b: NodeId,
) -> Result<Option<Poly>, Memory>
    ensures { IfOk result (λ found. found ≡ poly_difference terms.now.nodes a b) }
{
    let first = poly_reading(alloc, terms, a)?;
    let Some(left) = first else {
        return Ok(None);
    };
    let second = poly_reading(alloc, terms, b)?;
    let Some(right) = second else {
        return Ok(None);
    };
    let found = less_poly(alloc, &left, &right)?;
    Ok(found)
}

/// The first polynomial less the second, where it is defined.
pub(crate) fn less_poly(alloc: Global, left: &Poly, right: &Poly) -> Result<Option<Poly>, Memory>
    ensures { IfOk result (λ found. found ≡ less_poly left.now right.now) }
{
    let once = Poly::number(alloc, -1)?;
    match add_product(alloc, left, &once, right) {
        Ok(poly) => Ok(Some(poly)),
        Err(PolyRefusal::Overflow) => Ok(None),
        Err(PolyRefusal::Degree) => Ok(None),
        Err(PolyRefusal::Memory) => Err(Memory),
    }
}

/// Whether the polynomial is that of the first node less that of the second.
///
/// # Errors
/// `Memory` if out of memory.
pub fn is_poly_difference(
    alloc: Global,
    terms: &TermTable,
    a: NodeId,
    b: NodeId,
    poly: &Poly,
) -> Result<bool, Memory>
    ensures { IfOk result (λ yes. IsTrue yes ↔ (poly_difference terms.now.nodes a b ≡ Some poly.now)) }
{
    let found = poly_difference(alloc, terms, a, b)?;
    let Some(base) = found else {
        return Ok(false);
    };
    Ok(is_same_poly(&base, poly))
}
