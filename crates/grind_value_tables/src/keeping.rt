//! What one node has to keep.
ghost use Rattle.std.specs.Prelude.{IsTrue, ◌↔◌, ◌<◌, ◌≡◌, length, IfOk, IsErr};
ghost use Rattle.grind_term_graph.specs.Terms.{prop};
ghost use Rattle.grind_value_tables.specs.Respects.{IsTruthValue};
ghost use Rattle.grind_value_tables.specs.Overflows.{value_of};
ghost use Rattle.grind_value_tables.specs.NodeByNode.{KeepsAt, AsksTooMuchAt};

use crate::functions::agrees_before;
use crate::heads::means;
use crate::values::{Overflow, value};
use grind_term_graph::{NodeId, SortId, TermTable};

/// Whether the node of this number has a value that its head, its sort and the nodes before it allow.
///
/// # Errors
/// `Overflow` exactly where the node asks for a sum, a product or a negation that does not fit in 128 bits.
pub(crate) fn keeps_at(terms: &TermTable, list: &[i128], number: u32) -> Result<bool, Overflow>
    requires within { number < length terms.now.nodes }
    requires values { length list.now ≡ length terms.now.nodes }
    ensures exact { IfOk result (λ holds. IsTrue holds ↔ KeepsAt terms.now.nodes (value_of list.now) number) }
    ensures overflow { IsErr result ↔ AsksTooMuchAt terms.now.nodes (value_of list.now) number }
{
    let node = terms.node(NodeId::new(number));
    let given = value(list, NodeId::new(number));
    if !means(node.head, node.args.as_slice(), list, given)? {
        return Ok(false);
    }
    if !suits_sort(node.sort, given) {
        return Ok(false);
    }
    Ok(agrees_before(terms, list, number, node))
}

// A formula has the value 0 or 1. A term of another sort may have any.
fn suits_sort(sort: SortId, given: i128) -> bool
    ensures { IsTrue result ↔ (sort ≡ prop → IsTruthValue given) }
{
    sort != SortId::PROP || given == 0 || given == 1
}
