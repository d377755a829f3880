//! One pass over a table that reads what its roots need.
ghost use Rattle.std.specs.Prelude.{◌≡◌, ◌<◌, ◌≤◌, ◌⊎◌, ℕ, suc, All, Contains, length, slice_get, Some, None, IfOk, OnOk, MatchOption};
ghost use Rattle.grind_reach.specs.Readings.{found, read_at};
ghost use Rattle.grind_reach.specs.Marks.{IsMarked, IsCourse, AreRead, AreInUse, reader_at};

use crate::algebra::Algebra;
use crate::marking::{arguments_stand_before, is_marked, needed_nodes};
use crate::readers::{last_reader, last_uses};
use crate::reading::{found_at, read_node};
use grind_outside::{List, Memory};
use grind_term_graph::{NodeId, TermTable};
use std::alloc::Global;

/// The reading of a term, or None where it has none.
///
/// # Errors
///
/// `Memory` if out of memory.
pub fn read_term<R: Algebra>(
    alloc: Global,
    table: &TermTable,
    id: NodeId,
) -> Result<Option<R>, Memory>
    requires { id < length table.now.nodes }
    ensures { IfOk result (λ reading. reading ≡ read_at R.operations table.now.nodes id) }
{
    let mut list = read_all::<R>(alloc, table, &[id])?;
    let reading = list.replace(id.number() as usize, None);
    Ok(reading)
}

/// The readings of many terms, in one pass. Each stands at the number of its node. Each node that they need is read once,
/// and its reading is let go after the last node that needs it is read: in the end the list has those of the roots alone.
///
/// # Errors
///
/// `Memory` if out of memory.
pub fn read_all<R: Algebra>(
    alloc: Global,
    table: &TermTable,
    roots: &[NodeId],
) -> Result<List<Option<R>>, Memory>
    requires { All (λ root. root < length table.now.nodes) roots.now }
    ensures within { IfOk result (λ list. All (λ root. root < length list) roots.now) }
    ensures read { IfOk result (λ list. All (λ root. found list root ≡ read_at R.operations table.now.nodes root) roots.now) }
    ensures only { IfOk result (λ list. (k : ℕ) (reading : R) → found list k ≡ Some reading → Contains roots.now k) }
{
    arguments_stand_before(table);
    let marks = needed_nodes(alloc, table, roots)?;
    let uses = last_uses(alloc, table, marks.as_slice(), roots)?;
    let course = Course {
        alloc,
        table,
        roots,
        marks: marks.as_slice(),
        uses: uses.as_slice(),
    };
    read_along(&course)
}

/// The reading that a list has for a term, or None where it has none there.
pub fn held<R: Drop>(list: &List<Option<R>>, id: NodeId) -> Option<&R>
    requires { id < length list.now }
    ensures { MatchOption result (found list.now id ≡ None) (λ reading. found list.now id ≡ Some reading.now) }
{
    found_at(list.as_slice(), id)
}

// What one pass goes by: the marks of what is read, and the last use of each reading.
#[derive(Drop)]
struct Course<'a> {
    alloc: Global,
    table: &'a TermTable,
    roots: &'a [NodeId],
    marks: &'a [bool],
    uses: &'a [u32],
}

// The readings along the course.
fn read_along<R: Algebra>(course: &Course) -> Result<List<Option<R>>, Memory>
    requires { IsCourse course.now.table.now.nodes course.now.roots.now course.now.marks.now course.now.uses.now }
    ensures within { IfOk result (λ list. All (λ root. root < length list) course.now.roots.now) }
    ensures read { IfOk result (λ list. All (λ root. found list root ≡ read_at R.operations course.now.table.now.nodes root) course.now.roots.now) }
    ensures only { IfOk result (λ list. (k : ℕ) (reading : R) → found list k ≡ Some reading → Contains course.now.roots.now k) }
{
    let _count = course.table.len();
    let mut list = List::new(course.alloc);
    for number in 0..course.marks.len() {
        read_next(course, NodeId::new(number as u32), &mut list)?;
    }
    Ok(list)
}

// Reads the next node, where it is marked, and lets go the readings that have their last use there.
fn read_next<R: Algebra>(
    course: &Course,
    n: NodeId,
    list: &mut List<Option<R>>,
) -> Result<(), Memory>
    requires course { IsCourse course.now.table.now.nodes course.now.roots.now course.now.marks.now course.now.uses.now }
    requires within { n < length course.now.marks.now }
    requires count { length list.old ≡ n }
    requires known { AreRead R.operations course.now.table.now.nodes course.now.marks.now course.now.uses.now list.old }
    requires held { AreInUse course.now.marks.now course.now.uses.now list.old }
    ensures count { OnOk result (length list.new ≡ suc n) }
    ensures known { OnOk result (AreRead R.operations course.now.table.now.nodes course.now.marks.now course.now.uses.now list.new) }
    ensures held { OnOk result (AreInUse course.now.marks.now course.now.uses.now list.new) }
{
    let reading = read_marked(course, n, list.as_slice())?;
    list.push(reading)?;
    let_go(course.uses, n, course.table.node(n).args.as_slice(), list);
    Ok(())
}

// The reading of a node, where it is marked, from those of the nodes before it. A node that is not marked is not read.
fn read_marked<R: Algebra>(
    course: &Course,
    n: NodeId,
    list: &[Option<R>],
) -> Result<Option<R>, Memory>
    requires course { IsCourse course.now.table.now.nodes course.now.roots.now course.now.marks.now course.now.uses.now }
    requires within { n < length course.now.marks.now }
    requires count { length list.now ≡ n }
    requires known { AreRead R.operations course.now.table.now.nodes course.now.marks.now course.now.uses.now list.now }
    ensures read { IfOk result (λ reading. IsMarked course.now.marks.now n → reading ≡ read_at R.operations course.now.table.now.nodes n) }
    ensures only { IfOk result (λ reading. (it : R) → reading ≡ Some it → IsMarked course.now.marks.now n) }
{
    if !is_marked(course.marks, n.number() as usize) {
        return Ok(None);
    }
    let reading = read_node(course.alloc, n, course.table.node(n), list)?;
    Ok(reading)
}

// Lets go the readings of those of these nodes that have their last use at n.
fn let_go<R: Drop>(uses: &[u32], n: NodeId, args: &[NodeId], list: &mut List<Option<R>>)
    requires within { All (λ arg. arg < length list.old) args.now }
    requires uses { length list.old ≤ length uses.now }
    ensures size { length list.new ≡ length list.old }
    ensures kept { (k : ℕ) → (slice_get list.new k ≡ slice_get list.old k) ⊎ ((reader_at uses.now k ≡ n) × (slice_get list.new k ≡ Some None)) }
    ensures gone { All (λ arg. reader_at uses.now arg ≡ n → slice_get list.new arg ≡ Some None) args.now }
{
    let mut rest = args;
    while let Some((arg, tail)) = rest.split_first() {
        let_one_go(uses, n, *arg, list);
        rest = tail;
    }
}

// Lets go the reading of a node that has its last use at n.
fn let_one_go<R: Drop>(uses: &[u32], n: NodeId, arg: NodeId, list: &mut List<Option<R>>)
    requires within { arg < length list.old }
    requires uses { length list.old ≤ length uses.now }
    ensures size { length list.new ≡ length list.old }
    ensures kept { (k : ℕ) → (slice_get list.new k ≡ slice_get list.old k) ⊎ ((reader_at uses.now k ≡ n) × (slice_get list.new k ≡ Some None)) }
    ensures gone { reader_at uses.now arg ≡ n → slice_get list.new arg ≡ Some None }
{
    let place = arg.number() as usize;
    if last_reader(uses, place) != n.number() {
        return;
    }
    list.set(place, None);
}
