//! Lists of member lists.
ghost use Rattle.std.specs.Prelude.{◌≡◌, ◌≢◌, ◌<◌, ◌≤◌, ◌^◌, [], ◌∷◌, ◌++◌, length, take, slice_set, OnOk, OnErr, IfOk};
ghost use Rattle.grind_classes.specs.Classes.{long_enough, joined, members_of};
ghost use Rattle.grind_classes.specs.Trail.{parted};

use grind_outside::{List, Memory};
use grind_term_graph::NodeId;
use std::alloc::Global;

// Makes the list long enough for a node, by empty lists, or leaves it as it was.
pub(crate) fn make_room(
    alloc: Global,
    lists: &mut List<List<NodeId>>,
    n: NodeId,
) -> Result<(), Memory>
    ensures ok { OnOk result (lists.new ≡ long_enough lists.old n) }
    ensures err { OnErr result (lists.new ≡ lists.old) }
{
    let len = lists.len();
    match grow(alloc, lists, n) {
        Ok(()) => Ok(()),
        Err(_) => {
            lists.truncate(len);
            Err(Memory)
        }
    }
}

// Makes the list longer, by empty lists, until it has an item for a node.
fn grow(alloc: Global, lists: &mut List<List<NodeId>>, n: NodeId) -> Result<(), Memory>
    ensures ok { OnOk result (lists.new ≡ long_enough lists.old n) }
    ensures front { take (length lists.old) lists.new ≡ lists.old }
{
    while lists.len() <= n.number() as usize {
        lists.push(List::new(alloc))?;
    }
    Ok(())
}

// Appends the members under one root to those under another, and gives back the list of those that moved.
pub(crate) fn append_list(
    alloc: Global,
    lists: &mut List<List<NodeId>>,
    kept: NodeId,
    gone: NodeId,
) -> Result<List<NodeId>, Memory>
    requires kept { kept < length lists.old }
    requires gone { gone < length lists.old }
    requires differ { gone ≢ kept }
    ensures ok { OnOk result (lists.new ≡ joined lists.old kept gone) }
    ensures moved { IfOk result (λ moved. moved ≡ members_of lists.old gone) }
    ensures err { OnErr result (lists.new ≡ lists.old) }
{
    let moved = lists.replace(gone.number() as usize, List::new(alloc));
    match append_to(alloc, lists, kept, moved.as_slice()) {
        Ok(()) => Ok(moved),
        Err(_) => {
            lists.set(gone.number() as usize, moved);
            Err(Memory)
        }
    }
}

// Appends nodes to the members under a root, in place.
fn append_to(
    alloc: Global,
    lists: &mut List<List<NodeId>>,
    root: NodeId,
    nodes: &[NodeId],
) -> Result<(), Memory>
    requires { root < length lists.old }
    ensures ok { OnOk result (lists.new ≡ slice_set lists.old root (members_of lists.old root ++ nodes.now)) }
    ensures err { OnErr result (lists.new ≡ lists.old) }
{
    let mut members = lists.replace(root.number() as usize, List::new(alloc));
    match members.extend(nodes) {
        Ok(()) => {
            lists.set(root.number() as usize, members);
            Ok(())
        }
        Err(_) => {
            lists.set(root.number() as usize, members);
            Err(Memory)
        }
    }
}

// Undoes that the members under one root were appended to those under another.
pub(crate) fn put_apart(
    lists: &mut List<List<NodeId>>,
    kept: NodeId,
    gone: NodeId,
    moved: List<NodeId>,
)
    requires kept { kept < length lists.old }
    requires gone { gone < length lists.old }
    requires differ { gone ≢ kept }
    requires longer { length moved ≤ length (members_of lists.old kept) }
    ensures { lists.new ≡ parted lists.old kept gone moved }
{
    let count = moved.len();
    let blank = lists.replace(gone.number() as usize, moved);
    let mut both = lists.replace(kept.number() as usize, blank);
    let len = both.len() - count;
    both.truncate(len);
    lists.set(kept.number() as usize, both);
}

// The members under a root.
pub(crate) fn members(lists: &[List<NodeId>], root: NodeId) -> &[NodeId]
    requires { root < length lists.now }
    ensures value { result.now ≡ members_of lists.now root }
    ensures bound { length result.now < 2 ^ 32 }
{
    lists[root.number() as usize].as_slice()
}

// A copy of lists.
pub(crate) fn copied(alloc: Global, lists: &[List<NodeId>]) -> Result<List<List<NodeId>>, Memory>
    ensures { IfOk result (λ copies. copies ≡ lists.now) }
{
    let mut copies = List::new(alloc);
    let mut rest = lists;
    while let Some((list, tail)) = rest.split_first() {
        append(alloc, &mut copies, list)?;
        rest = tail;
    }
    Ok(copies)
}

// Puts a copy of a list at the end.
fn append(alloc: Global, lists: &mut List<List<NodeId>>, list: &List<NodeId>) -> Result<(), Memory>
    ensures { OnOk result (lists.new ≡ lists.old ++ list.now ∷ []) }
{
    let mut copy = List::new(alloc);
    copy.extend(list.as_slice())?;
    lists.push(copy)?;
    Ok(())
}
