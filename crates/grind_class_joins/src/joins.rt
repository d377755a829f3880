//! Merges of pairs of nodes.
ghost use Rattle.std.specs.Prelude.{◌≡◌, ℕ, ◌<◌, ◌≤◌, ◌*◌, ◌^◌, All, IfOk, OnOk, OnErr, ◌↔◌};
ghost use Rattle.grind_classes.specs.Classes.{IsActive};
ghost use Rattle.grind_class_joins.specs.Joins.{IsActivePair, MergesPair, Merges, MergesFirst, member_count, IsGreatestPower};

use grind_classes::Classes;
use grind_outside::{List, Memory};
use grind_term_graph::NodeId;
use std::alloc::Global;

/// Two nodes.
#[derive(Clone, Copy, Debug, PartialEq, Eq)]
pub struct Pair {
    /// The first.
    pub left: NodeId,
    /// The second.
    pub right: NodeId,
}

/// Merges the classes of the nodes of each pair, in order, where they are not one yet, and answers how many nodes were moved
/// to other classes in all. With n active nodes and b the greatest number with 2^b <= n, these are at most n * b.
///
/// # Errors
///
/// `Memory`. The classes of the first few pairs are merged then.
pub fn merge_all(alloc: Global, classes: &mut Classes, pairs: &List<Pair>) -> Result<u64, Memory>
    requires { All (IsActivePair classes.old.lists) pairs.now }
    ensures merges { IfOk result (λ moved. Merges classes.old.lists pairs.now classes.new.lists moved) }
    ensures bound { IfOk result (λ moved. (b : ℕ) → IsGreatestPower (member_count classes.old.lists) b
        → moved ≤ member_count classes.old.lists * b) }
    ensures active { (n : ℕ) → IsActive classes.new.lists n ↔ IsActive classes.old.lists n }
    ensures marked { classes.new.marked ≡ classes.old.marked }
    ensures err { OnErr result (MergesFirst classes.old.lists pairs.now classes.new.lists) }
{
    let mut moved = 0;
    let mut why = 0;
    let mut rest = pairs.as_slice();
    while let Some((pair, tail)) = rest.split_first() {
        let more = merge_pair(alloc, classes, pair, why)?;
        moved += more as u64;
        why += 1;
        rest = tail;
    }
    Ok(moved)
}

// Merges the classes of two nodes, unless they are one, and answers how many nodes were moved.
fn merge_pair(alloc: Global, classes: &mut Classes, pair: &Pair, why: u32) -> Result<u32, Memory>
    requires { IsActivePair classes.old.lists pair.now }
    ensures merges { IfOk result (λ moved. MergesPair classes.old.lists pair.now classes.new.lists moved) }
    ensures active { (n : ℕ) → IsActive classes.new.lists n ↔ IsActive classes.old.lists n }
    ensures marked { classes.new.marked ≡ classes.old.marked }
    ensures err { OnErr result (classes.new ≡ classes.old) }
{
    if classes.same(pair.left, pair.right) {
        return Ok(0);
    }
    let merged = classes.merge(alloc, pair.left, pair.right, why)?;
    Ok(merged.moved)
}
