//! What is known of a node.
ghost use Rattle.std.specs.Prelude.{◌↔◌, IsTrue};
ghost use Rattle.grind_truth_prop.specs.Given.{Marks, KnownToHold, KnownToFail, IsKnown};

use crate::types::Known;
use grind_term_graph::NodeId;

/// Whether the list marks the node.
fn marks(marks: &[bool], n: NodeId) -> bool
    ensures { IsTrue result ↔ Marks marks.now n }
{
    match marks.get(n.number() as usize) {
        Some(mark) => *mark,
        None => false,
    }
}

/// Whether the node is known to hold.
pub fn holds(known: &Known, n: NodeId) -> bool
    ensures { IsTrue result ↔ KnownToHold known.now n }
{
    marks(known.holds.as_slice(), n)
}

/// Whether the node is known to fail.
pub fn fails(known: &Known, n: NodeId) -> bool
    ensures { IsTrue result ↔ KnownToFail known.now n }
{
    marks(known.fails.as_slice(), n)
}

/// Whether the truth of the node is known.
pub fn is_known(known: &Known, n: NodeId) -> bool
    ensures { IsTrue result ↔ IsKnown known.now n }
{
    holds(known, n) || fails(known, n)
}
