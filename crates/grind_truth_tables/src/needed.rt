//! On which nodes the truths of claims rest: so a truth table costs no more than the terms of its claims.
ghost use Rattle.std.specs.Prelude.{IsTrue, ◌↔◌, ◌≡◌, ℕ, [], ◌∷◌, ◌<◌, All, IfOk, OnOk};
ghost use Rattle.grind_claims.specs.Claims.{claims_of};
ghost use Rattle.grind_truth_tables.specs.Needed.{Lists, IsConnective, Names, CoversNamed, IsSelfContained, Collects, Asks, NameNode};

use grind_claims::Claim;
use grind_outside::{List, Memory};
use grind_term_graph::{Head, NodeId, TermTable};
use std::alloc::Global;
use std::collections::BTreeSet;

/// The nodes on whose truths those of the claims rest, the greatest first: those that the claims name, and the arguments of
/// the connectives among them that are not free.
///
/// # Errors
/// `Memory` where there is none.
pub fn needed(
    alloc: Global,
    terms: &TermTable,
    free: &[NodeId],
    premises: &[&Claim],
    claim: &Claim,
) -> Result<List<NodeId>, Memory>
    ensures contained { IfOk result (IsSelfContained terms.now.nodes free.now) }
    ensures named { IfOk result (CoversNamed (claim.now ∷ claims_of premises.now)) }
{
    let mut pending = named(alloc, premises, claim)?;
    let mut order = List::new(alloc);
    while let Some(number) = pending.pop_last() {
        let node = NodeId::new(number);
        order.push(node)?;
        ask(&mut pending, terms, free, node)?;
    }
    Ok(order)
}

/// The nodes that the claims name.
fn named(alloc: Global, premises: &[&Claim], claim: &Claim) -> Result<BTreeSet<u32>, Memory>
    ensures { IfOk result (λ set. CoversNamed (claim.now ∷ claims_of premises.now) set.keys) }
{
    let mut set = BTreeSet::new(alloc);
    name(&mut set, claim)?;
    for premise in premises {
        name(&mut set, *premise)?;
    }
    Ok(set)
}

/// Puts the node that the claim names among the others.
fn name(set: &mut BTreeSet<u32>, claim: &Claim) -> Result<(), Memory>
    ensures kept { OnOk result ((m : ℕ) → Lists set.old.keys m → Lists set.new.keys m) }
    ensures named { OnOk result ((m : ℕ) → Names claim.now m → Lists set.new.keys m) }
{
    match claim {
        Claim::Holds(node) => {
            put(set, *node)?;
            Ok(())
        }
        Claim::Fails(node) => {
            put(set, *node)?;
            Ok(())
        }
        Claim::Same(_, _)
        | Claim::Differ(_, _)
        | Claim::AtMost(_)
        | Claim::Zero(_)
        | Claim::Absurd => Ok(()),
    }
}

/// Puts the node among the others.
fn put(set: &mut BTreeSet<u32>, node: NodeId) -> Result<(), Memory>
    ensures { OnOk result (Collects set.old.keys (node ∷ []) set.new.keys) }
{
    set.insert(node.number())?;
    Ok(())
}

/// Puts the nodes on which the truth of this one rests among the others.
fn ask(
    pending: &mut BTreeSet<u32>,
    terms: &TermTable,
    free: &[NodeId],
    node: NodeId,
) -> Result<(), Memory>
    ensures { OnOk result (Asks terms.now.nodes free.now node pending.old.keys pending.new.keys) }
{
    if node.number() >= terms.len() {
        return Ok(());
    }
    if is_free(free, node) {
        return Ok(());
    }
    let it = terms.node(node);
    if !is_connective(it.head) {
        return Ok(());
    }
    put_all(pending, it.args.as_slice())?;
    Ok(())
}

/// Puts each of the nodes among the others.
fn put_all(set: &mut BTreeSet<u32>, nodes: &[NodeId]) -> Result<(), Memory>
    ensures { OnOk result (Collects set.old.keys nodes.now set.new.keys) }
{
    let mut rest = nodes;
    while let Some((node, tail)) = rest.split_first() {
        put(set, *node)?;
        rest = tail;
    }
    Ok(())
}

/// Whether the node is one of the free ones.
fn is_free(free: &[NodeId], node: NodeId) -> bool
    ensures { IsTrue result ↔ Lists free.now node }
{
    let mut rest = free;
    while let Some((it, tail)) = rest.split_first() {
        if is_same(*it, node) {
            return true;
        }
        rest = tail;
    }
    false
}

/// Whether the two nodes are one.
fn is_same(a: NodeId, b: NodeId) -> bool
    ensures { IsTrue result ↔ (a ≡ b) }
{
    a == b
}

/// Whether the head is a connective.
fn is_connective(head: Head) -> bool
    ensures { IsTrue result ↔ IsConnective head }
{
    match head {
        Head::Not | Head::And | Head::Or | Head::Implies | Head::Eq => true,
        Head::True
        | Head::False
        | Head::Le
        | Head::Int(_)
        | Head::Add
        | Head::Neg
        | Head::Mul
        | Head::Fun(_)
        | Head::Const(_) => false,
    }
}
