//! A board without posts, on which all nodes are active.
ghost use Rattle.std.specs.Prelude.{◌+◌, ◌<◌, IfOk, OnOk, length};
ghost use Rattle.grind_board_state.specs.Beginnings.{AreActiveBelow};

use grind_congruence::Closure;
use grind_outside::{List, Memory};
use grind_term_graph::{NodeId, TermTable};
use std::alloc::Global;

/// An active node with its generation.
#[derive(Clone, Copy, Debug, PartialEq, Eq)]
pub struct Activation {
    /// The node.
    pub node: NodeId,
    /// How many instances of theorems it is away from the goal.
    pub generation: u32,
}

// The nodes that are active, and their classes.
#[derive(Drop)]
pub(crate) struct Begun {
    pub(crate) closure: Closure,
    pub(crate) active: List<Activation>,
}

// Makes the next node active, in the goal's generation.
fn activate_next(
    alloc: Global,
    terms: &TermTable,
    begun: &mut Begun,
    n: NodeId,
) -> Result<(), Memory>
    requires within { n < length terms.now.nodes }
    requires below { AreActiveBelow terms.now.nodes begun.old n }
    ensures { OnOk result (AreActiveBelow terms.now.nodes begun.new (n + 1)) }
{
    let _node = terms.node(n);
    begun.closure.activate(alloc, terms, n)?;
    begun.active.push(Activation {
        node: n,
        generation: 0,
    })?;
    Ok(())
}

// All nodes of the table active, each a class of its own.
pub(crate) fn all_active(alloc: Global, terms: &TermTable) -> Result<Begun, Memory>
    ensures { IfOk result (λ it. AreActiveBelow terms.now.nodes it (length terms.now.nodes)) }
{
    let mut begun = Begun {
        closure: Closure::new(alloc),
        active: List::new(alloc),
    };
    for number in 0..terms.len() {
        activate_next(alloc, terms, &mut begun, NodeId::new(number))?;
    }
    Ok(begun)
}
