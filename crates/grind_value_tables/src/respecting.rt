//! Which tables of values respect the terms.
ghost use Rattle.std.specs.Prelude.{IsTrue, ◌↔◌, ◌≡◌, length, IfOk, IsErr};
ghost use Rattle.grind_value_tables.specs.Respects.{Respects};
ghost use Rattle.grind_value_tables.specs.Overflows.{value_of, Overflows};

use crate::keeping::keeps_at;
use crate::values::{Overflow, Values};
use grind_term_graph::TermTable;

/// Whether the values respect the terms: there is one for each node, connectives, equality, order and arithmetic have
/// their meaning, a formula has 0 or 1, and a function gives one value at arguments of the same values. Nodes are
/// judged from 0 on, and none after the first that breaks this.
///
/// # Errors
/// `Overflow` exactly where the nodes before some node are in order, and that node asks for a sum, a product or a
/// negation that does not fit in 128 bits.
pub fn respects(terms: &TermTable, values: &Values) -> Result<bool, Overflow>
    requires { length values.now.list ≡ length terms.now.nodes }
    ensures exact { IfOk result (λ holds. IsTrue holds ↔ Respects terms.now.nodes (value_of values.now.list)) }
    ensures overflow { IsErr result ↔ Overflows terms.now.nodes (value_of values.now.list) }
{
    let list = values.list.as_slice();
    for number in 0..terms.len() {
        if !keeps_at(terms, list, number)? {
            return Ok(false);
        }
    }
    Ok(true)
}
