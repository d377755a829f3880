//! Instances of a theorem in a table that is full, and in one that has room.
ghost use Rattle.std.specs.Prelude.{◌≤◌, IsTrue, [], ◌∷◌, length};
ghost use Rattle.grind_schemes.specs.Instances.{IsSubstitution};

use grind_outside::Memory;
use grind_schemes::{Theorem, instantiate, missing};
use grind_term_graph::{NodeId, TermRefusal, TermTable};
use grind_theory::Theory;
use grind_theory_files::theory_of;
use std::alloc::Global;

/// Terms: 2 `a`, 3 `f(a)`, 4 `b`, 5 `f(b)`, 6 their equation, 7 `a = b`.
const THEORY: &str =
    "sort S. fun f(S): S. fun g(S): S. theorem inv (x: S) [pattern f(x)]: g(f(x)) = x.
    goal t (a b: S): f(a) = f(b) |- a = b.";

/// Whether the theorem has one variable, of the sort of the node.
fn suits(table: &TermTable, theorem: &Theorem, node: NodeId) -> bool
    ensures { IsTrue result → IsSubstitution table.now.nodes theorem.now.vars (node ∷ []) }
{
    let [sort] = theorem.vars.as_slice() else {
        return false;
    };
    node.number() < table.len() && table.sort(node) == *sort
}

/// How many nodes the instance at the node wants, where the node suits the theorem.
fn wanted(
    alloc: Global,
    theorem: &Theorem,
    table: &TermTable,
    node: NodeId,
) -> Result<Option<u32>, Memory> {
    if !suits(table, theorem, node) {
        return Ok(None);
    }
    let count = missing(alloc, theorem, &[node], table)?;
    Ok(Some(count))
}

/// The node of the instance at the node, where the node suits the theorem and the table has room.
fn made(
    alloc: Global,
    theorem: &Theorem,
    table: &mut TermTable,
    node: NodeId,
) -> Result<Option<NodeId>, Memory> {
    if !suits(table, theorem, node) {
        return Ok(None);
    }
    match instantiate(alloc, theorem, &[node], table) {
        Ok(node) => Ok(Some(node)),
        Err(TermRefusal::Full) => Ok(None),
        Err(TermRefusal::Memory) => Err(Memory),
    }
}

/// The instance at the node in a copy of the table with room for so many nodes, and how many nodes the copy has then.
fn made_within(
    alloc: Global,
    theorem: &Theorem,
    terms: &TermTable,
    limit: u32,
    node: NodeId,
) -> Result<(Option<NodeId>, u32), Memory> {
    if terms.len() > limit {
        return Ok((None, 0));
    }
    let mut table = terms.copy(alloc, limit)?;
    let instance = made(alloc, theorem, &mut table, node)?;
    Ok((instance, table.len()))
}

/// Whether the instance of the only theorem at `a` wants two nodes, and in a table of this limit is this node, with so many nodes then.
fn is_made(
    alloc: Global,
    theory: &Theory,
    limit: u32,
    instance: Option<NodeId>,
    count: u32,
) -> Result<bool, Memory> {
    let [theorem] = theory.lemmas.theorems.as_slice() else {
        return Ok(false);
    };
    let [goal] = theory.goals.as_slice() else {
        return Ok(false);
    };
    let a = NodeId::new(2);
    let more = wanted(alloc, theorem, goal.terms(), a)?;
    let made = made_within(alloc, theorem, goal.terms(), limit, a)?;
    Ok(more == Some(2) && made == (instance, count))
}

/// The same of the theory above.
fn is_instance(
    alloc: Global,
    limit: u32,
    instance: Option<NodeId>,
    count: u32,
) -> Result<bool, Memory> {
    let bytes = THEORY.as_bytes();
    if bytes.len() > 4_194_304 {
        return Ok(false);
    }
    let Ok(theory) = theory_of(alloc, bytes) else {
        return Ok(false);
    };
    is_made(alloc, &theory, limit, instance, count)
}

#[test]
fn an_instance_wants_room(rt: HostRuntime) {
    for (limit, node, count) in [(8, None, 8), (9, None, 8), (10, Some(NodeId::new(9)), 10)] {
        assert_eq!(rt; is_instance(rt.alloc(), limit, node, count), Ok(true));
    }
}
