//! What is given of a node.
ghost use Rattle.std.specs.Prelude.{◌↔◌, IsTrue};
ghost use Rattle.grind_classes.specs.Classes.{AreTogether};
ghost use Rattle.grind_truth_prop.specs.Given.{Marks, KnownToHold, KnownToFail};

use grind_classes::Classes;
use grind_term_graph::NodeId;
use grind_truth_prop::Known;

/// Whether the two nodes are in one class.
pub fn are_together(classes: &Classes, a: NodeId, b: NodeId) -> bool
    ensures { IsTrue result ↔ AreTogether classes.now.lists a b }
{
    if !classes.is_active(a) || !classes.is_active(b) {
        return false;
    }
    classes.same(a, b)
}

/// Whether the list marks the node.
fn marks(marks: &[bool], n: NodeId) -> bool
    ensures { IsTrue result ↔ Marks marks.now n }
{
    match marks.get(n.number() as usize) {
        Some(mark) => *mark,
        None => false,
    }
}

/// Whether the node is known to hold.
pub fn holds(known: &Known, n: NodeId) -> bool
    ensures { IsTrue result ↔ KnownToHold known.now n }
{
    marks(known.holds.as_slice(), n)
}

/// Whether the node is known to fail.
pub fn fails(known: &Known, n: NodeId) -> bool
    ensures { IsTrue result ↔ KnownToFail known.now n }
{
    marks(known.fails.as_slice(), n)
}
