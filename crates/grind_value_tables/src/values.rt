//! A table of values.
ghost use Rattle.std.specs.Prelude.{◌<◌, ◌≡◌, length};
ghost use Rattle.grind_value_tables.specs.Overflows.{value_of};

use grind_outside::List;
use grind_term_graph::NodeId;

/// One whole number for each node, in the order of the nodes. A formula has 1 where it is true and 0 where it is false.
#[derive(Drop, Debug, PartialEq, Eq)]
pub struct Values {
    /// The numbers, the value of node 0 first.
    pub list: List<i128>,
}

/// A sum, a product or a negation of values does not fit in 128 bits.
#[derive(Clone, Copy, Debug, PartialEq, Eq)]
pub struct Overflow;

/// The value of a node.
pub(crate) fn value(list: &[i128], node: NodeId) -> i128
    requires { node < length list.now }
    ensures { result ≡ value_of list.now node }
{
    list[node.number() as usize]
}
