//! The terms a, f(a), f(f(a)) and so on, by the public calls.
ghost use Rattle.std.specs.Prelude.{◌≡◌, ◌<◌, ◌∷◌, [], All, IfOk, IsTrue, length};
ghost use Rattle.grind_term_graph.specs.declared.head.Head.TheVariants.{Const, Fun};
ghost use Rattle.grind_classes.specs.Classes.{IsActive, AreTogether};
ghost use Rattle.grind_congruence.specs.Congruence.{Fits};

use grind_classes::Classes;
use grind_congruence::{Closure, Edge};
use grind_outside::Memory;
use grind_term_graph::{Args, FunId, Head, Node, NodeId, SortId, TermRefusal, TermTable};
use std::alloc::Global;
use std::test::Fail;

// The constant a.
fn constant(alloc: Global) -> Result<Node, Memory>
    ensures { IfOk result (λ node. node ≡ record { head = Const 0; sort = 2; args = [] }) }
{
    let args = Args::from_slice(alloc, &[])?;
    Ok(Node {
        head: Head::Const(0),
        sort: SortId::new(2),
        args,
    })
}

// The function f of a term.
fn applied(alloc: Global, arg: NodeId) -> Result<Node, Memory>
    ensures { IfOk result (λ node. node ≡ record { head = Fun 0; sort = 2; args = arg ∷ [] }) }
{
    let args = Args::from_slice(alloc, &[arg])?;
    Ok(Node {
        head: Head::Fun(FunId::new(0)),
        sort: SortId::new(2),
        args,
    })
}

// Puts f of the last node into a table.
fn put_next(alloc: Global, terms: &mut TermTable) -> Result<(), TermRefusal> {
    let last = NodeId::new(terms.len().saturating_sub(1));
    if last.number() < terms.len() {
        let next = applied(alloc, last)?;
        terms.intern(alloc, next)?;
    }
    Ok(())
}

// Puts a, f(a) and so on, up to five times f, into an empty table: the nodes 2 to 7.
fn put_powers(alloc: Global, terms: &mut TermTable) -> Result<(), TermRefusal> {
    let first = constant(alloc)?;
    terms.intern(alloc, first)?;
    for _ in 0..5 {
        put_next(alloc, terms)?;
    }
    Ok(())
}

// Whether all nodes are active.
fn are_active(classes: &Classes, nodes: &[NodeId]) -> bool
    ensures { IsTrue result → All (IsActive classes.now.lists) nodes.now }
{
    let mut rest = nodes;
    while let Some((n, tail)) = rest.split_first() {
        if !classes.is_active(*n) {
            return false;
        }
        rest = tail;
    }
    true
}

// Makes a node active, where its arguments are.
fn activated(
    alloc: Global,
    closure: &mut Closure,
    terms: &TermTable,
    n: NodeId,
) -> Result<(), Memory>
    requires { Fits closure.old terms.now.nodes }
    ensures { Fits closure.new terms.now.nodes }
{
    if n.number() >= terms.len() || closure.classes().is_active(n) {
        return Ok(());
    }
    if !are_active(closure.classes(), terms.node(n).args.as_slice()) {
        return Ok(());
    }
    closure.activate(alloc, terms, n)
}

// Makes all nodes of a table active.
fn activate_all(alloc: Global, closure: &mut Closure, terms: &TermTable) -> Result<(), Memory>
    requires { Fits closure.old terms.now.nodes }
    ensures { Fits closure.new terms.now.nodes }
{
    for number in 0..terms.len() {
        activated(alloc, closure, terms, NodeId::new(number))?;
    }
    Ok(())
}

// Says that two nodes are equal, where they are active.
fn asserted(
    alloc: Global,
    closure: &mut Closure,
    terms: &TermTable,
    a: NodeId,
    b: NodeId,
    why: u32,
) -> Result<(), Memory>
    requires { Fits closure.old terms.now.nodes }
    ensures { Fits closure.new terms.now.nodes }
{
    if !closure.classes().is_active(a) || !closure.classes().is_active(b) {
        return Ok(());
    }
    closure.assert_same(alloc, terms, a, b, why)
}

// Says what steps find, until they find nothing.
fn settled(alloc: Global, closure: &mut Closure, terms: &TermTable) -> Result<(), Memory>
    requires { Fits closure.old terms.now.nodes }
    ensures { Fits closure.new terms.now.nodes }
{
    for _ in 0..terms.len() {
        let found = closure.step(alloc, terms)?;
        let Some(found) = found else {
            return Ok(());
        };
        asserted(alloc, closure, terms, found.left, found.right, 9)?;
    }
    Ok(())
}

// Whether two active nodes are in different classes.
fn are_apart(closure: &Closure, a: NodeId, b: NodeId) -> bool {
    let classes = closure.classes();
    classes.is_active(a) && classes.is_active(b) && !classes.same(a, b)
}

// Where the edges at these places lead from a node.
fn end_of(edges: &[Edge], places: &[u32], a: NodeId) -> Option<NodeId> {
    let mut at = a;
    for place in places {
        let edge = edges.get(*place as usize)?;
        if edge.left == at {
            at = edge.right;
        } else if edge.right == at {
            at = edge.left;
        } else {
            return None;
        }
    }
    Some(at)
}

// Whether the way from a node to another is there and leads to it.
fn is_led(alloc: Global, closure: &Closure, a: NodeId, b: NodeId) -> Result<bool, Memory> {
    let classes = closure.classes();
    if !classes.is_active(a) || !classes.is_active(b) || !classes.same(a, b) {
        return Ok(false);
    }
    let places = closure.path(alloc, a, b)?;
    Ok(end_of(closure.edges(), places.as_slice(), a) == Some(b))
}

// Whether a copy has the same equations.
fn is_copied(alloc: Global, closure: &Closure) -> Result<bool, Memory> {
    let copy = closure.copy(alloc)?;
    Ok(copy.edges() == closure.edges())
}

// Whether the equations of f(f(f(a))) and f(f(f(f(f(a))))) with a leave f(a) apart from a and the closure not at rest.
fn are_kept(alloc: Global, closure: &mut Closure, terms: &TermTable) -> Result<bool, Memory>
    requires { Fits closure.old terms.now.nodes }
    ensures { Fits closure.new terms.now.nodes }
{
    let a = NodeId::new(2);
    asserted(alloc, closure, terms, NodeId::new(5), a, 7)?;
    asserted(alloc, closure, terms, NodeId::new(7), a, 8)?;
    Ok(!closure.at_rest(terms) && are_apart(closure, NodeId::new(3), a))
}

// Whether the steps end at rest, with a way from f(a) to a.
fn are_joined(alloc: Global, closure: &mut Closure, terms: &TermTable) -> Result<bool, Memory>
    requires { Fits closure.old terms.now.nodes }
{
    settled(alloc, closure, terms)?;
    if !closure.at_rest(terms) {
        return Ok(false);
    }
    is_led(alloc, closure, NodeId::new(3), NodeId::new(2))
}

// What came of the equations, of the steps and of a copy.
fn seen(
    alloc: Global,
    closure: &mut Closure,
    terms: &TermTable,
) -> Result<(bool, bool, bool), Memory>
    requires { Fits closure.old terms.now.nodes }
{
    activate_all(alloc, closure, terms)?;
    let kept = are_kept(alloc, closure, terms)?;
    let joined = are_joined(alloc, closure, terms)?;
    let copied = is_copied(alloc, closure)?;
    Ok((kept, joined, copied))
}

#[test]
fn joins_the_powers(rt: HostRuntime) -> Result<(), Fail> {
    let alloc = rt.alloc();
    let mut terms = TermTable::new(alloc, 8)?;
    put_powers(alloc, &mut terms)?;
    let mut closure = Closure::new(alloc);
    let answers = seen(alloc, &mut closure, &terms);
    assert_eq!(rt; answers, Ok((true, true, true)));
    Ok(())
}
