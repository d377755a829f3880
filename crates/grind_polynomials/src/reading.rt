//! Terms read as polynomials.
ghost use Rattle.std.specs.Prelude.{◌≡◌, ◌<◌, ℕ, All, Contains, length, Some, None, IfOk, IsErrOf};
ghost use Rattle.grind_term_graph.specs.Terms.{int, sort_at};
ghost use Rattle.grind_reach.specs.Readings.{found};
ghost use Rattle.grind_polynomials.specs.Readings.{polynomial, product_poly};

use crate::poly::{Poly, PolyRefusal};
use crate::sum::{add_product, negation, sum};
use grind_outside::{List, Memory};
use grind_reach::{Algebra, read_all, read_term};
use grind_term_graph::{NodeId, TermTable};
use std::alloc::Global;

#[tactic(auto, unfolding(crate::specs::Readings::polynomial))]
/// The reading of a term of whole numbers as a polynomial. Each node that it needs is read once, and its reading is let
/// go after the last node that needs it is read.
///
/// # Errors
///
/// `Overflow` exactly where a coefficient on the way does not fit in 128 bits; a product whose degree would be over 16 is
/// read as the node that it is, so that `Degree` never comes. `Memory` comes where there is none.
pub fn poly_of(alloc: Global, table: &TermTable, id: NodeId) -> Result<Poly, PolyRefusal>
    requires { sort_at table.now.nodes id ≡ Some int }
    ensures ok { IfOk result (λ poly. polynomial table.now.nodes id ≡ Some poly) }
    ensures overflow { IsErrOf result PolyRefusal.Overflow → polynomial table.now.nodes id ≡ None }
    ensures degree { IsErrOf result PolyRefusal.Degree → ⊥ }
{
    let reading = read_term::<Poly>(alloc, table, id)?;
    let Some(poly) = reading else {
        return Err(PolyRefusal::Overflow);
    };
    Ok(poly)
}

#[tactic(auto, unfolding(crate::specs::Readings::polynomial))]
/// The readings of many terms of whole numbers, in one pass over the table. Each stands at the number of its node, and
/// there is none exactly where a coefficient on the way does not fit in 128 bits.
///
/// # Errors
///
/// `Memory` if out of memory.
pub fn poly_of_all(
    alloc: Global,
    table: &TermTable,
    ids: &[NodeId],
) -> Result<List<Option<Poly>>, Memory>
    requires { All (λ id. sort_at table.now.nodes id ≡ Some int) ids.now }
    ensures within { IfOk result (λ polys. All (λ id. id < length polys) ids.now) }
    ensures only { IfOk result (λ polys. (k : ℕ) (poly : _) → found polys k ≡ Some poly → Contains ids.now k) }
    ensures read { IfOk result (λ polys. All (λ id. found polys id ≡ polynomial table.now.nodes id) ids.now) }
{
    read_all::<Poly>(alloc, table, ids)
}

impl Algebra for Poly {
    ghost use Rattle.grind_polynomials.specs.Readings.{poly_operations};

    ghost operations = { poly_operations };

    fn number(alloc: Global, number: i128) -> Result<Option<Poly>, Memory> {
        let poly = Poly::number(alloc, number)?;
        Ok(Some(poly))
    }

    fn atom(alloc: Global, node: NodeId) -> Result<Option<Poly>, Memory> {
        let poly = Poly::node(alloc, node)?;
        Ok(Some(poly))
    }

    fn sum(alloc: Global, a: &Poly, b: &Poly) -> Result<Option<Poly>, Memory> {
        match sum(alloc, a, b) {
            Ok(poly) => Ok(Some(poly)),
            Err(PolyRefusal::Memory) => Err(Memory),
            Err(_) => Ok(None),
        }
    }

    fn negation(alloc: Global, a: &Poly) -> Result<Option<Poly>, Memory> {
        match negation(alloc, a) {
            Ok(poly) => Ok(Some(poly)),
            Err(PolyRefusal::Memory) => Err(Memory),
            Err(_) => Ok(None),
        }
    }

    fn product(alloc: Global, node: NodeId, a: &Poly, b: &Poly) -> Result<Option<Poly>, Memory> {
        match product_of(alloc, node, a, b) {
            Ok(poly) => Ok(Some(poly)),
            Err(PolyRefusal::Memory) => Err(Memory),
            Err(_) => Ok(None),
        }
    }
}

// The product of two polynomials, or the node itself where its degree would be over 16.
fn product_of(alloc: Global, n: NodeId, a: &Poly, b: &Poly) -> Result<Poly, PolyRefusal>
    ensures ok { IfOk result (λ poly. product_poly n a.now b.now ≡ Some poly) }
    ensures overflow { IsErrOf result PolyRefusal.Overflow → product_poly n a.now b.now ≡ None }
    ensures degree { IsErrOf result PolyRefusal.Degree → ⊥ }
{
    let _left = a.terms();
    let _right = b.terms();
    if a.degree() + b.degree() > 16 {
        let poly = Poly::node(alloc, n)?;
        return Ok(poly);
    }
    let zero = Poly::zero(alloc);
    let poly = add_product(alloc, &zero, a, b)?;
    Ok(poly)
}
