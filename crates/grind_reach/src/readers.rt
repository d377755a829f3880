//! Which marked node is the last one that is read by another.
ghost use Rattle.std.specs.Prelude.{◌≡◌, ℕ, ◌<◌, ◌≤◌, ◌⊎◌, All, Contains, length, IfOk, true};
ghost use Rattle.grind_reach.specs.Reached.{reads_arguments};
ghost use Rattle.grind_reach.specs.Marks.{IsLastReader, IsLastUse, reader_at};

use crate::marking::{is_marked, is_read_by_arguments};
use grind_outside::{List, Memory};
use grind_term_graph::{Node, NodeId, TermTable};
use std::alloc::Global;

/// For each node that has a mark, set or not, the number of the last marked node that is read by it, or 0 where there
/// is none. Node 0 has no arguments, so it reads nothing.
///
/// # Errors
///
/// `Memory` where there is none for the numbers.
pub fn last_readers(alloc: Global, table: &TermTable, marks: &[bool]) -> Result<List<u32>, Memory>
    requires { length marks.now ≤ length table.now.nodes }
    ensures size { IfOk result (λ readers. length readers ≡ length marks.now) }
    ensures last { IfOk result (λ readers. (a : ℕ) → IsLastReader table.now.nodes marks.now a (reader_at readers a)) }
{
    let _count = table.len();
    let mut readers = zeros(alloc, marks.len())?;
    for number in 0..marks.len() {
        if is_marked(marks, number) {
            note(
                &mut readers,
                number as u32,
                table.node(NodeId::new(number as u32)),
            );
        }
    }
    Ok(readers)
}

/// For each node that has a mark, the last use of its reading: a root's comes after all marked nodes, and that of
/// another node is its last reader.
///
/// # Errors
///
/// `Memory` where there is none for the numbers.
pub fn last_uses(
    alloc: Global,
    table: &TermTable,
    marks: &[bool],
    roots: &[NodeId],
) -> Result<List<u32>, Memory>
    requires within { length marks.now ≤ length table.now.nodes }
    requires roots { All (λ root. root < length marks.now) roots.now }
    ensures size { IfOk result (λ uses. length uses ≡ length marks.now) }
    ensures uses { IfOk result (λ uses. (a : ℕ) → IsLastUse table.now.nodes marks.now roots.now a (reader_at uses a)) }
    ensures roots { IfOk result (λ uses. All (λ root. reader_at uses root ≡ length marks.now) roots.now) }
{
    let _count = table.len();
    let mut uses = last_readers(alloc, table, marks)?;
    note_all(&mut uses, marks.len() as u32, roots);
    Ok(uses)
}

/// The last reader of the node of a number.
pub fn last_reader(readers: &[u32], n: usize) -> u32
    requires { n < length readers.now }
    ensures { result ≡ reader_at readers.now n }
{
    readers[n]
}

// So many zeros.
fn zeros(alloc: Global, count: usize) -> Result<List<u32>, Memory>
    ensures size { IfOk result (λ zeros. length zeros ≡ count) }
    ensures zeros { IfOk result (λ zeros. (n : ℕ) → reader_at zeros n ≡ 0) }
{
    let mut zeros = List::new(alloc);
    for _number in 0..count {
        zeros.push(0)?;
    }
    Ok(zeros)
}

// Notes the reader at the arguments of a node that is read by them.
fn note(readers: &mut List<u32>, reader: u32, node: &Node)
    requires { All (λ arg. arg < length readers.old) node.now.args }
    ensures size { length readers.new ≡ length readers.old }
    ensures noted { reads_arguments node.now.head ≡ true → All (λ arg. reader_at readers.new arg ≡ reader) node.now.args }
    ensures only { (a : ℕ) → (reader_at readers.new a ≡ reader_at readers.old a) ⊎ ((reads_arguments node.now.head ≡ true) × Contains node.now.args a × (reader_at readers.new a ≡ reader)) }
{
    if is_read_by_arguments(node.head) {
        note_all(readers, reader, node.args.as_slice());
    }
}

// Notes the reader at these numbers.
fn note_all(readers: &mut List<u32>, reader: u32, numbers: &[NodeId])
    requires { All (λ number. number < length readers.old) numbers.now }
    ensures size { length readers.new ≡ length readers.old }
    ensures noted { All (λ number. reader_at readers.new number ≡ reader) numbers.now }
    ensures only { (a : ℕ) → (reader_at readers.new a ≡ reader_at readers.old a) ⊎ (Contains numbers.now a × (reader_at readers.new a ≡ reader)) }
{
    let mut rest = numbers;
    while let Some((number, tail)) = rest.split_first() {
        readers.set(number.number() as usize, reader);
        rest = tail;
    }
}
