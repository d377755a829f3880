//! Which terms apply one function to arguments of the same values.
ghost use Rattle.std.specs.Prelude.{IsTrue, ◌↔◌, ◌<◌, ◌≤◌, ◌≡◌, All, length, map, slice_get, Some};
ghost use Rattle.grind_value_tables.specs.Respects.{AreOneApplication};
ghost use Rattle.grind_value_tables.specs.Overflows.{value_of};
ghost use Rattle.grind_value_tables.specs.NodeByNode.{AgreesAt, AgreesBefore, AreOneFunction};

use crate::values::value;
use grind_term_graph::{Head, Node, NodeId, TermTable};

/// Whether each earlier application of the function of node `number` to the same values has the value of that node.
/// Where its head is no function there is nothing to compare.
pub(crate) fn agrees_before(terms: &TermTable, list: &[i128], number: u32, node: &Node) -> bool
    requires stands { slice_get terms.now.nodes number ≡ Some node.now }
    requires within { number < length terms.now.nodes }
    requires values { length list.now ≡ length terms.now.nodes }
    requires args { All (λ arg. arg < length list.now) node.now.args }
    ensures { IsTrue result ↔ AgreesBefore terms.now.nodes (value_of list.now) number node.now (value_of list.now number) }
{
    let given = value(list, NodeId::new(number));
    for earlier in 0..number {
        if !agrees(terms, list, earlier, node, given) {
            return false;
        }
    }
    true
}

// Whether the earlier node has this value, if it applies the same function to the same values.
fn agrees(terms: &TermTable, list: &[i128], earlier: u32, node: &Node, given: i128) -> bool
    requires within { earlier < length terms.now.nodes }
    requires values { length list.now ≡ length terms.now.nodes }
    requires args { All (λ arg. arg < length list.now) node.now.args }
    ensures { IsTrue result ↔ AgreesAt terms.now.nodes (value_of list.now) earlier node.now given }
{
    let first = terms.node(NodeId::new(earlier));
    if !are_one_application(first, node, list) {
        return true;
    }
    value(list, NodeId::new(earlier)) == given
}

// Whether two terms apply one function to arguments of the same values.
fn are_one_application(first: &Node, second: &Node, list: &[i128]) -> bool
    requires first { All (λ arg. arg < length list.now) first.now.args }
    requires second { All (λ arg. arg < length list.now) second.now.args }
    ensures { IsTrue result ↔ AreOneApplication (value_of list.now) first.now second.now }
{
    apply_one_function(first.head, second.head)
        && have_equal_values(first.args.as_slice(), second.args.as_slice(), list)
}

// Whether two heads are one function.
fn apply_one_function(first: Head, second: Head) -> bool
    ensures { IsTrue result ↔ AreOneFunction first second }
{
    match first {
        Head::Fun(_) => first == second,
        _ => false,
    }
}

// Whether the values of these arguments are those of the others, one by one.
fn have_equal_values(left: &[NodeId], right: &[NodeId], list: &[i128]) -> bool
    requires left { All (λ arg. arg < length list.now) left.now }
    requires right { All (λ arg. arg < length list.now) right.now }
    ensures { IsTrue result ↔ (map (value_of list.now) left.now ≡ map (value_of list.now) right.now) }
{
    let mut rest = left;
    let mut others = right;
    while let Some((a, more)) = rest.split_first() {
        let Some((b, further)) = others.split_first() else {
            return false;
        };
        if !have_one_value(list, *a, *b) {
            return false;
        }
        rest = more;
        others = further;
    }
    others.is_empty()
}

// Whether two nodes have one value.
fn have_one_value(list: &[i128], left: NodeId, right: NodeId) -> bool
    requires left { left < length list.now }
    requires right { right < length list.now }
    ensures { IsTrue result ↔ (value_of list.now left ≡ value_of list.now right) }
{
    value(list, left) == value(list, right)
}
