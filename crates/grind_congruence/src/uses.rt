//! For each node the places of the nodes with arguments of which it is an argument. A place may be stale.
ghost use Rattle.std.specs.Prelude.{◌≡◌, ℕ, ◌<◌, ◌++◌, ◌∷◌, [], Contains, length, take, IfOk, OnOk, OnErr};
ghost use Rattle.grind_congruence.specs.Table.{uses_of, uses_of_all, KeepsUses};

use grind_outside::{List, Memory};
use grind_term_graph::NodeId;
use std::alloc::Global;

// Makes the lists reach to a node, by empty ones.
fn reach(alloc: Global, uses: &mut List<List<u32>>, n: NodeId) -> Result<(), Memory>
    ensures same { (m : ℕ) → uses_of uses.new m ≡ uses_of uses.old m }
    ensures ok { OnOk result (n < length uses.new) }
{
    while uses.len() <= n.number() as usize {
        uses.push(List::new(alloc))?;
    }
    Ok(())
}

// Notes that a node is an argument at a place.
fn note(alloc: Global, uses: &mut List<List<u32>>, n: NodeId, place: u32) -> Result<(), Memory>
    ensures keeps { KeepsUses uses.old uses.new }
    ensures ok { OnOk result (Contains (uses_of uses.new n) place) }
{
    reach(alloc, uses, n)?;
    let mut places = uses.replace(n.number() as usize, List::new(alloc));
    match places.push(place) {
        Ok(()) => {
            uses.set(n.number() as usize, places);
            Ok(())
        }
        Err(_) => {
            uses.set(n.number() as usize, places);
            Err(Memory)
        }
    }
}

// Notes that nodes are arguments at a place.
pub(crate) fn note_all(
    alloc: Global,
    uses: &mut List<List<u32>>,
    nodes: &[NodeId],
    place: u32,
) -> Result<(), Memory>
    ensures keeps { KeepsUses uses.old uses.new }
    ensures ok { OnOk result ((n : ℕ) → Contains nodes.now n → Contains (uses_of uses.new n) place) }
{
    let mut rest = nodes;
    while let Some((n, tail)) = rest.split_first() {
        note(alloc, uses, *n, place)?;
        rest = tail;
    }
    Ok(())
}

// Appends the places at which a node is an argument.
fn put_uses(uses: &[List<u32>], n: NodeId, work: &mut List<u32>) -> Result<(), Memory>
    ensures ok { OnOk result (work.new ≡ work.old ++ uses_of uses.now n) }
    ensures err { OnErr result (work.new ≡ work.old) }
{
    let Some(places) = uses.get(n.number() as usize) else {
        return Ok(());
    };
    work.extend(places.as_slice())?;
    Ok(())
}

// Appends the places at which one of these nodes is an argument, all of them or none.
pub(crate) fn put_all_uses(
    uses: &[List<u32>],
    nodes: &[NodeId],
    work: &mut List<u32>,
) -> Result<(), Memory>
    ensures ok { OnOk result (work.new ≡ work.old ++ uses_of_all uses.now nodes.now) }
    ensures err { OnErr result (work.new ≡ work.old) }
{
    let len = work.len();
    match put_each(uses, nodes, work) {
        Ok(()) => Ok(()),
        Err(_) => {
            work.truncate(len);
            Err(Memory)
        }
    }
}

// Appends the places at which one of these nodes is an argument, or some of them.
fn put_each(uses: &[List<u32>], nodes: &[NodeId], work: &mut List<u32>) -> Result<(), Memory>
    ensures ok { OnOk result (work.new ≡ work.old ++ uses_of_all uses.now nodes.now) }
    ensures front { take (length work.old) work.new ≡ work.old }
{
    let mut rest = nodes;
    while let Some((n, tail)) = rest.split_first() {
        put_uses(uses, *n, work)?;
        rest = tail;
    }
    Ok(())
}

// A copy of lists of places.
pub(crate) fn copied_uses(alloc: Global, uses: &[List<u32>]) -> Result<List<List<u32>>, Memory>
    ensures { IfOk result (λ copies. copies ≡ uses.now) }
{
    let mut copies = List::new(alloc);
    let mut rest = uses;
    while let Some((places, tail)) = rest.split_first() {
        append_copy(alloc, &mut copies, places)?;
        rest = tail;
    }
    Ok(copies)
}

// Puts a copy of a list at the end.
fn append_copy(alloc: Global, uses: &mut List<List<u32>>, places: &List<u32>) -> Result<(), Memory>
    ensures { OnOk result (uses.new ≡ uses.old ++ places.now ∷ []) }
{
    let mut copy = List::new(alloc);
    copy.extend(places.as_slice())?;
    uses.push(copy)?;
    Ok(())
}
