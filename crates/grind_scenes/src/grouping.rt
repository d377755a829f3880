//! Classes of the nodes of a table.
ghost use Rattle.std.specs.Prelude.{◌≡◌, ◌↔◌, ◌<◌, length, IfOk, OnOk, IsTrue};
ghost use Rattle.grind_classes.specs.Classes.{AreTogether};
ghost use Rattle.grind_scenes.specs.Scenes.{AreAlone, AreClassesOf, AreOfOneSort};

use grind_classes::Classes;
use grind_outside::Memory;
use grind_term_graph::{NodeId, TermTable};
use std::alloc::Global;

// Each of the first nodes in a class of its own.
fn alone(alloc: Global, count: u32) -> Result<Classes, Memory>
    ensures { IfOk result (λ classes. AreAlone classes.lists count) }
{
    let mut classes = Classes::new(alloc);
    for n in 0..count {
        classes.activate(alloc, NodeId::new(n))?;
    }
    Ok(classes)
}

/// Each node of a table in a class of its own.
///
/// # Errors
///
/// `Memory` if out of memory.
pub fn all_alone(alloc: Global, terms: &TermTable) -> Result<Classes, Memory>
    ensures alone { IfOk result (λ classes. AreAlone classes.lists (length terms.now.nodes)) }
    ensures classes { IfOk result (λ classes. AreClassesOf terms.now.nodes classes.lists) }
{
    let count = terms.len();
    let classes = alone(alloc, count)?;
    Ok(classes)
}

// Whether both are nodes of the table, of one sort.
fn are_of_one_sort(terms: &TermTable, a: NodeId, b: NodeId) -> bool
    ensures { IsTrue result ↔ AreOfOneSort terms.now.nodes a b }
{
    let count = terms.len();
    if a.number() >= count {
        return false;
    }
    if b.number() >= count {
        return false;
    }
    terms.sort(a) == terms.sort(b)
}

/// Joins the classes of two nodes, if both are in the table and of one sort.
///
/// # Errors
///
/// `Memory` if out of memory.
pub fn join(
    alloc: Global,
    terms: &TermTable,
    classes: &mut Classes,
    a: NodeId,
    b: NodeId,
) -> Result<(), Memory>
    requires { AreClassesOf terms.now.nodes classes.old.lists }
    ensures classes { OnOk result (AreClassesOf terms.now.nodes classes.new.lists) }
    ensures together { OnOk result (AreOfOneSort terms.now.nodes a b → AreTogether classes.new.lists a b) }
{
    if !are_of_one_sort(terms, a, b) {
        return Ok(());
    }
    if classes.same(a, b) {
        return Ok(());
    }
    classes.merge(alloc, a, b, 0)?;
    Ok(())
}
