//! Nodes with arguments.
ghost use Rattle.std.specs.Prelude.{◌≡◌, IfOk};

use grind_outside::{List, Memory};
use grind_term_graph::{Node, NodeId};
use std::alloc::Global;

/// An active node with arguments.
#[derive(Drop, Debug)]
pub struct Application {
    /// The node.
    pub node: NodeId,
    /// What the table of terms says of it.
    pub term: Node,
}

// Copies of nodes with arguments.
pub(crate) fn copied(
    alloc: Global,
    applications: &[Application],
) -> Result<List<Application>, Memory>
    ensures { IfOk result (λ copies. copies ≡ applications.now) }
{
    let mut copies = List::new(alloc);
    let mut rest = applications;
    while let Some((it, tail)) = rest.split_first() {
        let term = it.term.copy(alloc)?;
        copies.push(Application {
            node: it.node,
            term,
        })?;
        rest = tail;
    }
    Ok(copies)
}
