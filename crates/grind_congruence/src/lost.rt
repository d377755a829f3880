//! For each node the place of a join, in an array by node.
ghost use Rattle.std.specs.Prelude.{◌≡◌, ℕ, ◌<◌, None, length, slice_index_or, OnOk};

use grind_outside::{List, Memory};
use grind_term_graph::NodeId;

// The place that is written for a node, if there is one.
pub(crate) fn entry_of(lost: &[Option<u32>], n: NodeId) -> Option<u32>
    ensures { result ≡ slice_index_or lost.now n None }
{
    match lost.get(n.number() as usize) {
        Some(place) => *place,
        None => None,
    }
}

// Makes the array long enough for a node, by entries without a place.
pub(crate) fn reach(lost: &mut List<Option<u32>>, n: NodeId) -> Result<(), Memory>
    ensures same { (m : ℕ) → slice_index_or lost.new m None ≡ slice_index_or lost.old m None }
    ensures ok { OnOk result (n < length lost.new) }
{
    while lost.len() <= n.number() as usize {
        lost.push(None)?;
    }
    Ok(())
}
