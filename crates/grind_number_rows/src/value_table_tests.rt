//! Small tables of values, by the public calls.
ghost use Rattle.std.specs.Prelude.{IsTrue, ◌<◌, All, length, IfOk};
ghost use Rattle.grind_linear_forms.specs.declared.form.Part as parts;
ghost use Rattle.grind_polynomials.specs.declared.poly.Term as terms;

use grind_linear_forms::{Form, FormRefusal, scale};
use grind_outside::{List, Memory};
use grind_polynomials::{Poly, PolyRefusal, Term, add_product};
use grind_proof_kernel::Claim;
use grind_term_graph::{Args, FunId, Head, Node, NodeId, SortId, TermRefusal, TermTable};
use grind_value_tables::{Overflow, Values, claim_true, respects};
use std::alloc::Global;
use std::test::Fail;

// The constant of this number and sort.
fn constant(
    alloc: Global,
    terms: &mut TermTable,
    number: u32,
    sort: SortId,
) -> Result<NodeId, TermRefusal> {
    let args = Args::from_slice(alloc, &[])?;
    let head = Head::Const(number);
    terms.intern(alloc, Node { head, sort, args })
}

// A function of a term.
fn function_of(alloc: Global, terms: &mut TermTable, arg: NodeId) -> Result<NodeId, TermRefusal> {
    if arg.number() >= terms.len() {
        return Err(TermRefusal::Full);
    }
    let args = Args::from_slice(alloc, &[arg])?;
    let head = Head::Fun(FunId::new(0));
    let sort = SortId::new(2);
    terms.intern(alloc, Node { head, sort, args })
}

// The equation of a term with itself.
fn reflexive(alloc: Global, terms: &mut TermTable, side: NodeId) -> Result<NodeId, TermRefusal> {
    if side.number() >= terms.len() {
        return Err(TermRefusal::Full);
    }
    let args = Args::from_slice(alloc, &[side, side])?;
    let head = Head::Eq;
    let sort = SortId::PROP;
    terms.intern(alloc, Node { head, sort, args })
}

// A number with its sign turned.
fn negation(alloc: Global, terms: &mut TermTable, arg: NodeId) -> Result<NodeId, TermRefusal> {
    if arg.number() >= terms.len() || terms.sort(arg) != SortId::INT {
        return Err(TermRefusal::Full);
    }
    let args = Args::from_slice(alloc, &[arg])?;
    let head = Head::Neg;
    let sort = SortId::INT;
    terms.intern(alloc, Node { head, sort, args })
}

// `true`, `false`, a constant, a function of it, and the equation of that with itself.
fn five_terms(alloc: Global) -> Result<TermTable, TermRefusal> {
    let mut terms = TermTable::new(alloc, 5)?;
    let a = constant(alloc, &mut terms, 0, SortId::new(2))?;
    let side = function_of(alloc, &mut terms, a)?;
    let _equation = reflexive(alloc, &mut terms, side)?;
    Ok(terms)
}

// `true`, `false`, a number, and that number with its sign turned.
fn four_terms(alloc: Global) -> Result<TermTable, TermRefusal> {
    let mut terms = TermTable::new(alloc, 4)?;
    let a = constant(alloc, &mut terms, 0, SortId::INT)?;
    let _negation = negation(alloc, &mut terms, a)?;
    Ok(terms)
}

// These values.
fn values(alloc: Global, numbers: &[i128]) -> Result<Values, Memory> {
    let mut list = List::new(alloc);
    list.extend(numbers)?;
    Ok(Values { list })
}

// What is answered of values, where there is one for each term.
fn judged(terms: &TermTable, given: &Values) -> Option<Result<bool, Overflow>> {
    if given.list.len() != terms.len() as usize {
        return None;
    }
    Some(respects(terms, given))
}

#[test]
fn judges_five_terms(rt: HostRuntime) -> Result<(), Fail> {
    let alloc = rt.alloc();
    let terms = five_terms(alloc)?;
    for (last, want) in [(1, true), (0, false)] {
        let given = values(alloc, &[1, 0, 7, 7, last])?;
        assert_eq!(rt; judged(&terms, &given), Some(Ok(want)), "with {last}");
    }
    Ok(())
}

#[test]
fn overflows_at_the_first_node_that_asks(rt: HostRuntime) -> Result<(), Fail> {
    let alloc = rt.alloc();
    let terms = four_terms(alloc)?;
    for (second, want) in [(0, Err(Overflow)), (1, Ok(false))] {
        let given = values(alloc, &[1, second, i128::MIN, 0])?;
        assert_eq!(rt; judged(&terms, &given), Some(want), "with {second}");
    }
    Ok(())
}

#[test]
fn reads_a_claim(rt: HostRuntime) -> Result<(), Fail> {
    let given = values(rt.alloc(), &[1, 0, 7])?;
    let claim = Claim::Differ(NodeId::TRUE, NodeId::FALSE);
    assert!(rt; given.list.len() == 3);
    assert_eq!(rt; claim_true(&claim, &given), Ok(true));
    Ok(())
}

// Whether each node of the form has a value.
fn form_has_values(form: &Form, count: usize) -> bool
    ensures { IsTrue result → All (λ (part : parts.Part). part.node < count) form.now.parts }
{
    form.parts()
        .iter()
        .all(|part| (part.node.number() as usize) < count)
}

// Whether each node has a value.
fn nodes_have_values(nodes: &[NodeId], count: usize) -> bool
    ensures { IsTrue result → All (λ n. n < count) nodes.now }
{
    nodes.iter().all(|node| (node.number() as usize) < count)
}

// Whether each node of the polynomial has a value.
fn poly_has_values(poly: &Poly, count: usize) -> bool
    ensures { IsTrue result → All (λ (term : terms.Term). All (λ n. n < count) term.monomial) poly.now }
{
    poly.terms()
        .iter()
        .all(|term| nodes_have_values(term.monomial.as_slice(), count))
}

// What is answered of a bound on this form, where each of its nodes has a value.
fn bounded(form: Form, given: &Values) -> Option<Result<bool, Overflow>> {
    if !form_has_values(&form, given.list.len()) {
        return None;
    }
    let claim = Claim::AtMost(form);
    Some(claim_true(&claim, given))
}

// What is answered of the equation of this polynomial with 0, where each of its nodes has a value.
fn vanishing(poly: Poly, given: &Values) -> Option<Result<bool, Overflow>> {
    if !poly_has_values(&poly, given.list.len()) {
        return None;
    }
    let claim = Claim::Zero(poly);
    Some(claim_true(&claim, given))
}

// Twice node 0.
fn doubled(alloc: Global) -> Result<Form, FormRefusal> {
    let node = Form::node(alloc, NodeId::TRUE)?;
    scale(alloc, &node, 2)
}

// Node 0 times itself.
fn squared(alloc: Global) -> Result<Poly, PolyRefusal> {
    let node = Poly::node(alloc, NodeId::TRUE)?;
    add_product(alloc, &Poly::zero(alloc), &node, &node)
}

#[test]
fn reads_a_bound(rt: HostRuntime) -> Result<(), Fail> {
    let alloc = rt.alloc();
    for (number, want) in [(0, Ok(true)), (1, Ok(false)), (i128::MAX, Err(Overflow))] {
        let given = values(alloc, &[number])?;
        assert_eq!(rt;
            bounded(doubled(alloc)?, &given),
            Some(want),
            "with {number}"
        );
    }
    Ok(())
}

#[test]
fn reads_an_equation(rt: HostRuntime) -> Result<(), Fail> {
    let alloc = rt.alloc();
    for (number, want) in [(0, Ok(true)), (-1, Ok(false)), (i128::MIN, Err(Overflow))] {
        let given = values(alloc, &[number])?;
        assert_eq!(rt;
            vanishing(squared(alloc)?, &given),
            Some(want),
            "with {number}"
        );
    }
    Ok(())
}
