//! Changes of classes, together with what has to be looked at then.
ghost use Rattle.std.specs.Prelude.{◌≡◌, OnOk, OnErr};
ghost use Rattle.grind_classes.specs.Classes.{IsActive, AreTogether};
ghost use Rattle.grind_congruence.specs.Changes.{IsEnlisted, IsMerged};

use crate::agenda::Agenda;
use crate::edge::Edge;
use crate::joining::moved_by;
use grind_classes::Classes;
use grind_outside::Memory;
use grind_term_graph::{Node, NodeId};
use std::alloc::Global;

// Makes a class of one node, and takes the node in.
pub(crate) fn enlist(
    alloc: Global,
    classes: &mut Classes,
    agenda: &mut Agenda,
    n: NodeId,
    node: &Node,
) -> Result<(), Memory>
    requires { ¬ IsActive classes.old.lists n }
    ensures ok { OnOk result (IsEnlisted classes.old agenda.old n node.now classes.new agenda.new) }
    ensures classes { OnErr result (classes.new ≡ classes.old) }
    ensures agenda { OnErr result (agenda.new ≡ agenda.old) }
{
    let noted = agenda.noted(0);
    agenda.take_in(alloc, n, node)?;
    match classes.activate(alloc, n) {
        Ok(()) => Ok(()),
        Err(_) => {
            agenda.undo(noted);
            Err(Memory)
        }
    }
}

// Joins the classes of the two nodes of an equation. All nodes with an argument that moves have to be looked at.
pub(crate) fn merge(
    alloc: Global,
    classes: &mut Classes,
    agenda: &mut Agenda,
    edge: &Edge,
) -> Result<(), Memory>
    requires first { IsActive classes.old.lists edge.now.left }
    requires second { IsActive classes.old.lists edge.now.right }
    requires apart { ¬ AreTogether classes.old.lists edge.now.left edge.now.right }
    ensures ok { OnOk result (IsMerged classes.old agenda.old edge.now.left edge.now.right classes.new agenda.new) }
    ensures classes { OnErr result (classes.new ≡ classes.old) }
    ensures agenda { OnErr result (agenda.new ≡ agenda.old) }
{
    let noted = agenda.noted(0);
    agenda.touch(moved_by(classes, edge.left, edge.right))?;
    match classes.merge(alloc, edge.left, edge.right, edge.why) {
        Ok(_) => Ok(()),
        Err(_) => {
            agenda.undo(noted);
            Err(Memory)
        }
    }
}
