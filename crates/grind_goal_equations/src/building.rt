//! The closure of given equations under congruence over all nodes of a table.
ghost use Rattle.std.specs.Prelude.{◌+◌, ◌<◌, All, Contains, IfOk, OnOk, length};
ghost use Rattle.grind_classes.specs.Classes.{AreTogether};
ghost use Rattle.grind_congruence.specs.Congruence.{AreCongruent};
ghost use Rattle.grind_goal_equations.specs.Building.{IsFounded, HasEnds, IsBuilt, KeepsTogether, IsAsserted, IsOneMore, AreAsserted, HasRest, IsStepped, IsActiveBelow, IsClosure};

use grind_congruence::{Closure, Edge, Found};
use grind_outside::Memory;
use grind_term_graph::{NodeId, TermTable};
use std::alloc::Global;

// A closure of no equations in which all nodes of the table are active.
fn all_active(alloc: Global, terms: &TermTable) -> Result<Closure, Memory>
    ensures { IfOk result (λ closure. IsActiveBelow terms.now.nodes closure (length terms.now.nodes)) }
{
    let mut closure = Closure::new(alloc);
    for number in 0..terms.len() {
        activate_next(alloc, terms, &mut closure, NodeId::new(number))?;
    }
    Ok(closure)
}

// Makes the next node active.
fn activate_next(
    alloc: Global,
    terms: &TermTable,
    closure: &mut Closure,
    n: NodeId,
) -> Result<(), Memory>
    requires within { n < length terms.now.nodes }
    requires below { IsActiveBelow terms.now.nodes closure.old n }
    ensures { OnOk result (IsActiveBelow terms.now.nodes closure.new (n + 1)) }
{
    let _node = terms.node(n);
    closure.activate(alloc, terms, n)?;
    Ok(())
}

// Asserts an equation between two classes, which is a given one or a congruence.
fn join(
    alloc: Global,
    terms: &TermTable,
    _given: &[Edge],
    closure: &mut Closure,
    edge: &Edge,
) -> Result<(), Memory>
    requires built { IsBuilt terms.now.nodes _given.now closure.old }
    requires ends { HasEnds terms.now.nodes edge.now }
    requires apart { ¬ AreTogether closure.old.lists edge.now.left edge.now.right }
    requires founded { IsFounded terms.now.nodes _given.now closure.old.edges (length closure.old.edges) edge.now }
    ensures { OnOk result (IsOneMore terms.now.nodes _given.now closure.old closure.new edge.now.left edge.now.right) }
{
    closure.assert_same(alloc, terms, edge.left, edge.right, edge.why)?;
    Ok(())
}

// Asserts a given equation.
fn assert_given(
    alloc: Global,
    terms: &TermTable,
    given: &[Edge],
    closure: &mut Closure,
    edge: &Edge,
) -> Result<(), Memory>
    requires built { IsBuilt terms.now.nodes given.now closure.old }
    requires ends { HasEnds terms.now.nodes edge.now }
    requires among { Contains given.now edge.now }
    ensures built { OnOk result (IsBuilt terms.now.nodes given.now closure.new) }
    ensures keeps { OnOk result (KeepsTogether closure.old closure.new) }
    ensures asserted { OnOk result (IsAsserted closure.new edge.now) }
{
    if closure.classes().same(edge.left, edge.right) {
        return Ok(());
    }
    join(alloc, terms, given, closure, edge)?;
    Ok(())
}

// Asserts all given equations.
fn assert_all(
    alloc: Global,
    terms: &TermTable,
    given: &[Edge],
    closure: &mut Closure,
) -> Result<(), Memory>
    requires built { IsBuilt terms.now.nodes given.now closure.old }
    requires ends { All (HasEnds terms.now.nodes) given.now }
    ensures built { OnOk result (IsBuilt terms.now.nodes given.now closure.new) }
    ensures asserted { OnOk result (AreAsserted given.now closure.new) }
{
    let mut rest = given;
    while let Some((edge, tail)) = rest.split_first() {
        assert_given(alloc, terms, given, closure, edge)?;
        rest = tail;
    }
    Ok(())
}

// Asserts the equation of two congruent nodes.
fn join_found(
    alloc: Global,
    terms: &TermTable,
    given: &[Edge],
    closure: &mut Closure,
    found: Found,
) -> Result<(), Memory>
    requires built { IsBuilt terms.now.nodes given.now closure.old }
    requires apart { ¬ AreTogether closure.old.lists found.left found.right }
    requires congruent { AreCongruent closure.old.lists terms.now.nodes found.left found.right }
    ensures { OnOk result (IsOneMore terms.now.nodes given.now closure.old closure.new found.left found.right) }
{
    let _classes = closure.classes();
    let edge = Edge {
        left: found.left,
        right: found.right,
        why: 0,
    };
    join(alloc, terms, given, closure, &edge)?;
    Ok(())
}

// Asserts the equation of two congruent nodes that are not together, if there are any, and answers whether there were.
fn join_next(
    alloc: Global,
    terms: &TermTable,
    given: &[Edge],
    closure: &mut Closure,
) -> Result<bool, Memory>
    requires built { IsBuilt terms.now.nodes given.now closure.old }
    ensures { IfOk result (λ went. IsStepped terms.now.nodes given.now closure.old closure.new went) }
{
    let answer = closure.step(alloc, terms)?;
    let Some(found) = answer else {
        return Ok(false);
    };
    join_found(alloc, terms, given, closure, found)?;
    Ok(true)
}

// Asserts the equations of congruent nodes until all that are congruent are together.
fn settle(
    alloc: Global,
    terms: &TermTable,
    given: &[Edge],
    closure: &mut Closure,
) -> Result<(), Memory>
    requires built { IsBuilt terms.now.nodes given.now closure.old }
    ensures built { OnOk result (IsBuilt terms.now.nodes given.now closure.new) }
    ensures keeps { OnOk result (KeepsTogether closure.old closure.new) }
    ensures rest { OnOk result (HasRest terms.now.nodes closure.new) }
{
    while join_next(alloc, terms, given, closure)? {}
    Ok(())
}

// The closure of given equations.
pub(crate) fn closure_of(
    alloc: Global,
    terms: &TermTable,
    given: &[Edge],
) -> Result<Closure, Memory>
    requires { All (HasEnds terms.now.nodes) given.now }
    ensures { IfOk result (λ closure. IsClosure terms.now.nodes given.now closure) }
{
    let mut closure = all_active(alloc, terms)?;
    assert_all(alloc, terms, given, &mut closure)?;
    settle(alloc, terms, given, &mut closure)?;
    Ok(closure)
}
