//! Which nodes a reading needs.
ghost use Rattle.std.specs.Prelude.{◌≡◌, ℕ, ◌<◌, ◌≤◌, ◌⊎◌, All, Contains, length, IfOk, true, IsTrue, ◌↔◌};
ghost use Rattle.grind_reach.specs.Reached.{reads_arguments, IsNeeded, HaveEarlierArguments};
ghost use Rattle.grind_reach.specs.Marks.{IsMarked, HasMarkedArguments};

use grind_outside::{List, Memory};
use grind_term_graph::{Head, Node, NodeId, TermTable};
use std::alloc::Global;

/// Marks for the nodes up to the last root: of the roots and of each node that their reading needs, and of no other. What
/// is marked has the arguments by which it is read marked.
///
/// # Errors
///
/// `Memory` where there is none for the marks.
pub fn needed_nodes(
    alloc: Global,
    table: &TermTable,
    roots: &[NodeId],
) -> Result<List<bool>, Memory>
    requires { All (λ root. root < length table.now.nodes) roots.now }
    ensures roots { IfOk result (λ marks. All (λ root. root < length marks) roots.now) }
    ensures size { IfOk result (λ marks. (bound : ℕ) → All (λ root. root < bound) roots.now → length marks ≤ bound) }
    ensures exact { IfOk result (λ marks. (n : ℕ) → IsMarked marks n ↔ IsNeeded table.now.nodes roots.now n) }
    ensures closed { IfOk result (λ marks. (n : ℕ) → HasMarkedArguments table.now.nodes marks n) }
{
    let mut marks = only_these(alloc, roots)?;
    let mut number = marks.len();
    while number > 0 {
        number -= 1;
        if is_marked(marks.as_slice(), number) {
            mark_arguments(&mut marks, table.node(NodeId::new(number as u32)));
        }
    }
    Ok(marks)
}

// In a table the arguments of a node stand before it. Who makes the call knows it.
pub(crate) fn arguments_stand_before(table: &TermTable)
    ensures { HaveEarlierArguments table.now.nodes }
{
    let _count = table.len();
}

/// Whether the node of a number is marked.
pub fn is_marked(marks: &[bool], n: usize) -> bool
    requires { n < length marks.now }
    ensures { IsTrue result ↔ IsMarked marks.now n }
{
    marks[n]
}

// Marks of these numbers and no other, up to the last of them.
fn only_these(alloc: Global, numbers: &[NodeId]) -> Result<List<bool>, Memory>
    ensures within { IfOk result (λ marks. All (λ number. number < length marks) numbers.now) }
    ensures size { IfOk result (λ marks. (bound : ℕ) → All (λ number. number < bound) numbers.now → length marks ≤ bound) }
    ensures marked { IfOk result (λ marks. All (IsMarked marks) numbers.now) }
    ensures only { IfOk result (λ marks. (n : ℕ) → IsMarked marks n → Contains numbers.now n) }
{
    let mut marks = unmarked(alloc, end_of(numbers))?;
    mark_all(&mut marks, numbers);
    Ok(marks)
}

// The least number above all of these.
fn end_of(numbers: &[NodeId]) -> usize
    ensures above { All (λ number. number < result) numbers.now }
    ensures least { (bound : ℕ) → All (λ number. number < bound) numbers.now → result ≤ bound }
{
    let mut end = 0;
    let mut rest = numbers;
    while let Some((number, tail)) = rest.split_first() {
        end = past(end, *number);
        rest = tail;
    }
    end
}

// The least number at or above an end and above a node.
fn past(end: usize, node: NodeId) -> usize
    ensures end { end ≤ result }
    ensures node { node < result }
    ensures least { (bound : ℕ) → end ≤ bound → node < bound → result ≤ bound }
{
    let place = node.number() as usize;
    if place < end {
        return end;
    }
    place + 1
}

// No marks for the first numbers, so many of them.
fn unmarked(alloc: Global, count: usize) -> Result<List<bool>, Memory>
    ensures size { IfOk result (λ marks. length marks ≡ count) }
    ensures none { IfOk result (λ marks. (n : ℕ) → IsMarked marks n → ⊥) }
{
    let mut marks = List::new(alloc);
    for _number in 0..count {
        marks.push(false)?;
    }
    Ok(marks)
}

// Marks the arguments of a node that is read by them.
fn mark_arguments(marks: &mut List<bool>, node: &Node)
    requires { All (λ arg. arg < length marks.old) node.now.args }
    ensures size { length marks.new ≡ length marks.old }
    ensures kept { (n : ℕ) → IsMarked marks.old n → IsMarked marks.new n }
    ensures args { reads_arguments node.now.head ≡ true → All (IsMarked marks.new) node.now.args }
    ensures only { (n : ℕ) → IsMarked marks.new n → IsMarked marks.old n ⊎ ((reads_arguments node.now.head ≡ true) × Contains node.now.args n) }
{
    if is_read_by_arguments(node.head) {
        mark_all(marks, node.args.as_slice());
    }
}

// Whether a term of this head is read by its arguments.
pub(crate) fn is_read_by_arguments(head: Head) -> bool
    ensures { result ≡ reads_arguments head }
{
    match head {
        Head::Add | Head::Neg | Head::Mul => true,
        _ => false,
    }
}

// Marks these numbers.
fn mark_all(marks: &mut List<bool>, numbers: &[NodeId])
    requires { All (λ number. number < length marks.old) numbers.now }
    ensures size { length marks.new ≡ length marks.old }
    ensures kept { (n : ℕ) → IsMarked marks.old n → IsMarked marks.new n }
    ensures marked { All (IsMarked marks.new) numbers.now }
    ensures only { (n : ℕ) → IsMarked marks.new n → IsMarked marks.old n ⊎ Contains numbers.now n }
{
    let mut rest = numbers;
    while let Some((number, tail)) = rest.split_first() {
        marks.set(number.number() as usize, true);
        rest = tail;
    }
}
