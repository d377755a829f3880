//! What a call changed.
ghost use Rattle.std.specs.Prelude.{◌≡◌, IfOk};

use grind_outside::{List, Memory};
use grind_term_graph::NodeId;
use std::alloc::Global;

// What a call changed in classes, with the lists that undo needs.
#[derive(Drop, Debug)]
pub(crate) enum Change {
    // A node became a class of its own. There were so many lists before, and the list in the place of the new one was empty.
    Activated {
        node: NodeId,
        len: u32,
        blank: List<NodeId>,
    },
    // The members of one class were appended to those of another.
    Joined {
        kept: NodeId,
        gone: NodeId,
        moved: List<NodeId>,
    },
}

// The same change once more.
pub(crate) fn copied(alloc: Global, change: &Change) -> Result<Change, Memory>
    ensures { IfOk result (λ copy. copy ≡ change.now) }
{
    match change {
        Change::Activated { node, len, blank } => {
            let blank = copied_list(alloc, blank)?;
            Ok(Change::Activated {
                node: *node,
                len: *len,
                blank,
            })
        }
        Change::Joined { kept, gone, moved } => {
            let moved = copied_list(alloc, moved)?;
            Ok(Change::Joined {
                kept: *kept,
                gone: *gone,
                moved,
            })
        }
    }
}

// The same list once more.
fn copied_list(alloc: Global, list: &List<NodeId>) -> Result<List<NodeId>, Memory>
    ensures { IfOk result (λ copy. copy ≡ list.now) }
{
    let mut copy = List::new(alloc);
    copy.extend(list.as_slice())?;
    Ok(copy)
}
