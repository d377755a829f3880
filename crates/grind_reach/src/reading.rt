//! The reading of one node, from the readings of its arguments.
ghost use Rattle.std.specs.Prelude.{◌≡◌, ◌<◌, All, length, None, Some, IfOk, MatchOption};
ghost use Rattle.grind_reach.specs.Readings.{found, of_one, of_two, reading_of};

use crate::algebra::Algebra;
use grind_outside::Memory;
use grind_term_graph::{Head, Node, NodeId};
use std::alloc::Global;

/// The reading of a node from those of its arguments, which stand at their numbers.
pub(crate) fn read_node<R: Algebra>(
    alloc: Global,
    n: NodeId,
    node: &Node,
    list: &[Option<R>],
) -> Result<Option<R>, Memory>
    requires { All (λ arg. arg < length list.now) node.now.args }
    ensures { IfOk result (λ reading. reading ≡ reading_of R.operations (found list.now) n node.now.head node.now.args) }
{
    match node.head {
        Head::Int(number) => R::number(alloc, number),
        Head::Add => read_sum(alloc, node.args.as_slice(), list),
        Head::Neg => read_negation(alloc, node.args.as_slice(), list),
        Head::Mul => read_product(alloc, n, node.args.as_slice(), list),
        _ => R::atom(alloc, n),
    }
}

/// The reading that a list has for a node.
pub(crate) fn found_at<R: Drop>(list: &[Option<R>], id: NodeId) -> Option<&R>
    requires { id < length list.now }
    ensures { MatchOption result (found list.now id ≡ None) (λ reading. found list.now id ≡ Some reading.now) }
{
    list[id.number() as usize].as_ref()
}

// The sum of the readings of two arguments.
fn read_sum<R: Algebra>(
    alloc: Global,
    args: &[NodeId],
    list: &[Option<R>],
) -> Result<Option<R>, Memory>
    requires { All (λ arg. arg < length list.now) args.now }
    ensures { IfOk result (λ reading. reading ≡ of_two (found list.now) R.operations.sum_of args.now) }
{
    let [a, b] = args else {
        return Ok(None);
    };
    let Some(left) = found_at(list, *a) else {
        return Ok(None);
    };
    let Some(right) = found_at(list, *b) else {
        return Ok(None);
    };
    R::sum(alloc, left, right)
}

// The reading of the only argument with its sign turned.
fn read_negation<R: Algebra>(
    alloc: Global,
    args: &[NodeId],
    list: &[Option<R>],
) -> Result<Option<R>, Memory>
    requires { All (λ arg. arg < length list.now) args.now }
    ensures { IfOk result (λ reading. reading ≡ of_one (found list.now) R.operations.negation_of args.now) }
{
    let [a] = args else {
        return Ok(None);
    };
    let Some(positive) = found_at(list, *a) else {
        return Ok(None);
    };
    R::negation(alloc, positive)
}

// The product of the readings of two arguments.
fn read_product<R: Algebra>(
    alloc: Global,
    n: NodeId,
    args: &[NodeId],
    list: &[Option<R>],
) -> Result<Option<R>, Memory>
    requires { All (λ arg. arg < length list.now) args.now }
    ensures { IfOk result (λ reading. reading ≡ of_two (found list.now) (R.operations.product_of n) args.now) }
{
    let [a, b] = args else {
        return Ok(None);
    };
    let Some(left) = found_at(list, *a) else {
        return Ok(None);
    };
    let Some(right) = found_at(list, *b) else {
        return Ok(None);
    };
    R::product(alloc, n, left, right)
}
