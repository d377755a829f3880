//! Readings of the sides of a goal's conclusion, and a reduction by its hypotheses.
ghost use Rattle.std.specs.Prelude.{◌≡◌, ◌≢◌, ◌↔◌, [], IsTrue, All, Some};
ghost use Rattle.grind_term_graph.specs.Terms.{int, sort_at};

use grind_linear_forms::{FormRefusal, linear_of};
use grind_normal_forms::normal;
use grind_outside::{List, Memory};
use grind_polynomials::{Poly, PolyRefusal, add_product, poly_of};
use grind_schemes::Goal;
use grind_term_graph::{NodeId, SortId, TermTable};
use std::alloc::Global;

/// The sides of an equation of whole numbers.
#[derive(Clone, Copy)]
pub struct Sides {
    /// The left one.
    pub left: NodeId,
    /// The right one.
    pub right: NodeId,
}

/// How many parts the reading of the conclusion's left side has as a linear form, where it has one.
///
/// # Errors
/// `Memory` if out of memory.
pub fn parts_of(alloc: Global, goal: &Goal) -> Result<Option<usize>, Memory> {
    let terms = goal.terms();
    let Some(sides) = sides_of(terms, goal.show()) else {
        return Ok(None);
    };
    if !is_number(terms, sides.left) {
        return Ok(None);
    }
    match linear_of(alloc, terms, sides.left) {
        Ok(form) => Ok(Some(form.parts().len())),
        Err(FormRefusal::Overflow) => Ok(None),
        Err(FormRefusal::Memory) => Err(Memory),
    }
}

/// How many terms the polynomial of the conclusion's left side has, where there is one.
///
/// # Errors
/// `Memory` if out of memory.
pub fn terms_of(alloc: Global, goal: &Goal) -> Result<Option<usize>, Memory> {
    let Some(poly) = left_side(alloc, goal)? else {
        return Ok(None);
    };
    Ok(Some(poly.terms().len()))
}

/// How many terms the normal form of that polynomial has by the basis, where there is one.
///
/// # Errors
/// `Memory` if out of memory.
pub fn rest_of(alloc: Global, poly: &Poly, basis: &List<Poly>) -> Result<Option<usize>, Memory>
    requires { All (λ b. b ≢ []) basis.now }
{
    match normal(alloc, poly, basis) {
        Ok(reduced) => Ok(Some(reduced.rest.terms().len())),
        Err(PolyRefusal::Memory) => Err(Memory),
        Err(_) => Ok(None),
    }
}

/// The polynomial of the conclusion's left side.
///
/// # Errors
/// `Memory` if out of memory.
pub fn left_side(alloc: Global, goal: &Goal) -> Result<Option<Poly>, Memory> {
    let terms = goal.terms();
    let Some(sides) = sides_of(terms, goal.show()) else {
        return Ok(None);
    };
    let poly = polynomial(alloc, terms, sides.left)?;
    Ok(poly)
}

/// The differences of the sides of the hypotheses, as polynomials: those that are defined and not 0.
///
/// # Errors
/// `Memory` if out of memory.
pub fn basis_of(alloc: Global, goal: &Goal) -> Result<List<Poly>, Memory> {
    let terms = goal.terms();
    let mut basis = List::new(alloc);
    for hyp in goal.hyps() {
        if let Some(element) = element(alloc, terms, *hyp)? {
            basis.push(element)?;
        }
    }
    Ok(basis)
}

/// Whether no polynomial is 0.
pub fn are_nonzero(basis: &List<Poly>) -> bool
    ensures { IsTrue result ↔ All (λ b. b ≢ []) basis.now }
{
    basis.as_slice().iter().all(|poly| is_nonzero(poly))
}

/// Whether the polynomial has a term.
fn is_nonzero(poly: &Poly) -> bool
    ensures { IsTrue result ↔ (poly.now ≢ []) }
{
    poly.terms().len() > 0
}

/// The difference of the sides of an equation, where it is defined and not 0.
fn element(alloc: Global, terms: &TermTable, node: NodeId) -> Result<Option<Poly>, Memory> {
    let Some(sides) = sides_of(terms, node) else {
        return Ok(None);
    };
    let Some(left) = polynomial(alloc, terms, sides.left)? else {
        return Ok(None);
    };
    let Some(right) = polynomial(alloc, terms, sides.right)? else {
        return Ok(None);
    };
    let minus = Poly::number(alloc, -1)?;
    let poly = match add_product(alloc, &left, &minus, &right) {
        Ok(poly) => poly,
        Err(PolyRefusal::Memory) => return Err(Memory),
        Err(_) => return Ok(None),
    };
    if poly.terms().is_empty() {
        return Ok(None);
    }
    Ok(Some(poly))
}

/// The polynomial of a node, where it is a whole number and has one.
fn polynomial(alloc: Global, terms: &TermTable, node: NodeId) -> Result<Option<Poly>, Memory> {
    if !is_number(terms, node) {
        return Ok(None);
    }
    match poly_of(alloc, terms, node) {
        Ok(poly) => Ok(Some(poly)),
        Err(PolyRefusal::Memory) => Err(Memory),
        Err(_) => Ok(None),
    }
}

/// Whether the node is a whole number.
pub fn is_number(terms: &TermTable, node: NodeId) -> bool
    ensures { IsTrue result → sort_at terms.now.nodes node ≡ Some int }
{
    node.number() < terms.len() && terms.sort(node) == SortId::INT
}

/// The two arguments of a node, where there are two.
pub fn sides_of(terms: &TermTable, node: NodeId) -> Option<Sides> {
    if node.number() >= terms.len() {
        return None;
    }
    let [left, right] = terms.node(node).args.as_slice() else {
        return None;
    };
    Some(Sides {
        left: *left,
        right: *right,
    })
}
