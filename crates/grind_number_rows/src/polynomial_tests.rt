//! Readings, sums, pairs, normal forms and factors by their public calls.
ghost use Rattle.std.specs.Prelude.{◌≡◌, [], ◌∷◌, Some, IsTrue};
ghost use Rattle.grind_term_graph.specs.Terms.{int, sort_at};

use grind_normal_forms::{Factors, Reduced, factors_of, normal, s_poly};
use grind_outside::List;
use grind_polynomials::{Poly, PolyRefusal, add_product, poly_of};
use grind_term_graph::{Args, Head, Node, NodeId, SortId, TermRefusal, TermTable};
use std::alloc::Global;
use std::test::Fail;

// Whether there is a node of this number, and it is a whole number.
fn is_number(table: &TermTable, id: NodeId) -> bool
    ensures { IsTrue result → sort_at table.now.nodes id ≡ Some int }
{
    if id.number() >= table.len() {
        return false;
    }
    table.sort(id) == SortId::INT
}

// Puts the constant 0 into a table.
fn put_leaf(alloc: Global, table: &mut TermTable) -> Result<NodeId, TermRefusal> {
    let args = Args::from_slice(alloc, &[])?;
    let head = Head::Const(0);
    let sort = SortId::INT;
    table.intern(alloc, Node { head, sort, args })
}

// Puts the product of two whole numbers into a table.
fn put_product(
    alloc: Global,
    table: &mut TermTable,
    a: NodeId,
    b: NodeId,
) -> Result<NodeId, TermRefusal> {
    if !is_number(table, a) || !is_number(table, b) {
        return put_leaf(alloc, table);
    }
    let args = Args::from_slice(alloc, &[a, b])?;
    let head = Head::Mul;
    let sort = SortId::INT;
    table.intern(alloc, Node { head, sort, args })
}

// What reading a node answers, where it is a whole number.
fn read(alloc: Global, table: &TermTable, id: NodeId) -> Option<Result<Poly, PolyRefusal>> {
    if !is_number(table, id) {
        return None;
    }
    Some(poly_of(alloc, table, id))
}

// A number times a power of a node.
fn power_of(alloc: Global, number: i128, node: u32, power: u32) -> Result<Poly, PolyRefusal> {
    let zero = Poly::zero(alloc);
    let factor = Poly::node(alloc, NodeId::new(node))?;
    let mut product = Poly::number(alloc, number)?;
    for _count in 0..power {
        product = add_product(alloc, &zero, &product, &factor)?;
    }
    Ok(product)
}

// The sum of a polynomial and a number times a power of a node.
fn with_power(
    alloc: Global,
    sum: &Poly,
    number: i128,
    node: u32,
    power: u32,
) -> Result<Poly, PolyRefusal> {
    let one = Poly::number(alloc, 1)?;
    let product = power_of(alloc, number, node, power)?;
    add_product(alloc, sum, &one, &product)
}

// The square of node 2, twice node 2, less node 3, and 1.
fn element(alloc: Global) -> Result<Poly, PolyRefusal> {
    let square = power_of(alloc, 1, 2, 2)?;
    let linear = with_power(alloc, &square, 2, 2, 1)?;
    let difference = with_power(alloc, &linear, -1, 3, 1)?;
    with_power(alloc, &difference, 1, 2, 0)
}

// Twice node 2 taken off node 3, less 1.
fn remainder(alloc: Global) -> Result<Poly, PolyRefusal> {
    let linear = power_of(alloc, -2, 2, 1)?;
    let difference = with_power(alloc, &linear, 1, 3, 1)?;
    with_power(alloc, &difference, -1, 2, 0)
}

// The product of nodes 2 and 3, less 1.
fn product_less_one(alloc: Global) -> Result<Poly, PolyRefusal> {
    let left = power_of(alloc, 1, 2, 1)?;
    let right = power_of(alloc, 1, 3, 1)?;
    let minus_one = Poly::number(alloc, -1)?;
    add_product(alloc, &minus_one, &left, &right)
}

// What the S-polynomial of two polynomials answers, where neither is zero.
fn paired(alloc: Global, a: &Poly, b: &Poly) -> Option<Result<Poly, PolyRefusal>> {
    if a.terms().is_empty() || b.terms().is_empty() {
        return None;
    }
    Some(s_poly(alloc, a, b))
}

// What the normal form by one polynomial answers, where it is not zero.
fn reduced(alloc: Global, p: &Poly, b: Poly) -> Option<Result<Reduced, PolyRefusal>> {
    if b.terms().is_empty() {
        return None;
    }
    let mut basis = List::new(alloc);
    if basis.push(b).is_err() {
        return None;
    }
    Some(normal(alloc, p, &basis))
}

// What the factors by one polynomial answer, where it is not zero.
fn factored(alloc: Global, p: &Poly, b: Poly) -> Option<Result<Factors, PolyRefusal>> {
    if b.terms().is_empty() {
        return None;
    }
    let mut basis = List::new(alloc);
    if basis.push(b).is_err() {
        return None;
    }
    Some(factors_of(alloc, p, &basis))
}

#[test]
fn pairs_a_product_with_its_factor(rt: HostRuntime) -> Result<(), Fail> {
    let alloc = rt.alloc();
    let a = product_less_one(alloc)?;
    let b = power_of(alloc, 1, 2, 1)?;
    let answer = paired(alloc, &a, &b);
    assert_eq!(rt; answer, Some(power_of(alloc, -1, 2, 0)));
    Ok(())
}

#[test]
fn reduces_a_square(rt: HostRuntime) -> Result<(), Fail> {
    let alloc = rt.alloc();
    let square = power_of(alloc, 1, 2, 2)?;
    let rest = remainder(alloc)?;
    let answer = reduced(alloc, &square, element(alloc)?);
    assert_eq!(rt; answer, Some(Ok(Reduced { factor: 1, rest })));
    Ok(())
}

#[test]
fn names_the_factors_of_a_square(rt: HostRuntime) -> Result<(), Fail> {
    let alloc = rt.alloc();
    let square = power_of(alloc, 1, 2, 2)?;
    let mut list = List::new(alloc);
    list.push(power_of(alloc, -1, 2, 0)?)?;
    let factors = Factors {
        divisor: 1,
        own: 1,
        list,
    };
    let answer = factored(alloc, &square, element(alloc)?);
    assert_eq!(rt; answer, Some(Ok(factors)));
    Ok(())
}

#[test]
fn refuses_a_product_of_degree_17(rt: HostRuntime) -> Result<(), Fail> {
    let alloc = rt.alloc();
    let zero = Poly::zero(alloc);
    let nine = power_of(alloc, 1, 2, 9)?;
    let eight = power_of(alloc, 1, 2, 8)?;
    assert_eq!(rt;
        add_product(alloc, &zero, &nine, &eight),
        Err(PolyRefusal::Degree)
    );
    assert_eq!(rt;
        add_product(alloc, &zero, &eight, &eight),
        power_of(alloc, 1, 2, 16)
    );
    Ok(())
}

#[test]
fn reads_a_long_product_as_an_atom(rt: HostRuntime) -> Result<(), Fail> {
    let alloc = rt.alloc();
    let mut table = TermTable::new(alloc, 30)?;
    let leaf = NodeId::new(2);
    let _leaf = put_leaf(alloc, &mut table);
    for number in 2..18 {
        let node = NodeId::new(number);
        let _product = put_product(alloc, &mut table, node, leaf);
    }
    let sixteen = read(alloc, &table, NodeId::new(17));
    assert_eq!(rt; sixteen, Some(power_of(alloc, 1, 2, 16)));
    let seventeen = read(alloc, &table, NodeId::new(18));
    assert_eq!(rt; seventeen, Some(power_of(alloc, 1, 18, 1)));
    Ok(())
}
