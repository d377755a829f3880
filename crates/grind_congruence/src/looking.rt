//! The search for two congruent nodes by a table of keys.
ghost use Rattle.std.specs.Prelude.{◌≡◌, ◌<◌, ◌^◌, [], Some, None, All, IsTrue, IfOk, IfSome, IfNone, IsNone, length, slice_get, ◌↔◌};
ghost use Rattle.std.specs.List.{AllZip};
ghost use Rattle.grind_classes.specs.Classes.{IsActive, IsPartition};
ghost use Rattle.grind_congruence.specs.declared.application.Application.{Application};
ghost use Rattle.grind_congruence.specs.Table.{IsAt, IsRootOf, IsKeyOf, IsSound, IsCovered, IsLonger, KeepsUp, AreFoundAmong, agenda_of};

use crate::application::Application;
use crate::edge::Found;
use crate::keys::Keys;
use grind_classes::Classes;
use grind_outside::{List, Memory};
use grind_term_graph::{Args, Node, NodeId};
use std::alloc::Global;

// What a search reads: the classes, the active nodes with arguments, and the places of those that have to be looked at.
#[derive(Drop)]
pub(crate) struct Look<'a> {
    pub(crate) classes: &'a Classes,
    pub(crate) applications: &'a [Application],
    pub(crate) work: &'a [u32],
}

// Looks at what has to be looked at, from the cursor on, up to the first node that is congruent to one of another class.
pub(crate) fn drain(
    alloc: Global,
    look: &Look<'_>,
    table: &mut Keys,
    cursor: &mut u32,
) -> Result<Option<Found>, Memory>
    requires stands { KeepsUp look.now.classes.now.lists (agenda_of table.old look.now.applications.now look.now.work.now cursor.old) }
    requires partition { IsPartition look.now.classes.now.lists }
    requires bound { length look.now.work.now < 2 ^ 32 }
    ensures stands { KeepsUp look.now.classes.now.lists (agenda_of table.new look.now.applications.now look.now.work.now cursor.new) }
    ensures longer { IsLonger table.old table.new }
    ensures found { IfOk result (λ answer. IfSome answer
        (λ found. AreFoundAmong look.now.classes.now.lists look.now.applications.now found.left found.right)) }
    ensures none { IfOk result (λ answer. IsNone answer → cursor.new ≡ length look.now.work.now) }
{
    while (*cursor as usize) < look.work.len() {
        let place = place_at(look.work, *cursor);
        let answer = look_at(alloc, look, table, place)?;
        if let Some(found) = answer {
            return Ok(Some(found));
        }
        *cursor += 1;
    }
    Ok(None)
}

// The application at a place, if there is one.
fn application_at(applications: &[Application], place: u32) -> Option<&Application>
    ensures some { IfSome result (λ it. slice_get applications.now place ≡ Some it.now) }
    ensures none { IfNone result (slice_get applications.now place ≡ None) }
{
    applications.get(place as usize)
}

// The place at the cursor.
fn place_at(work: &[u32], cursor: u32) -> u32
    requires { cursor < length work.now }
    ensures { slice_get work.now cursor ≡ Some result }
{
    work[cursor as usize]
}

// The node of an application whose key the table has with a node of another class, and that node. Else the table has its key then.
fn look_at(
    alloc: Global,
    look: &Look<'_>,
    table: &mut Keys,
    place: u32,
) -> Result<Option<Found>, Memory>
    requires sound { IsSound look.now.classes.now.lists look.now.applications.now table.old }
    requires partition { IsPartition look.now.classes.now.lists }
    ensures sound { IsSound look.now.classes.now.lists look.now.applications.now table.new }
    ensures longer { IsLonger table.old table.new }
    ensures found { IfOk result (λ answer. IfSome answer
        (λ found. AreFoundAmong look.now.classes.now.lists look.now.applications.now found.left found.right)) }
    ensures covered { IfOk result (λ answer. IsNone answer → (it : Application) → IsAt look.now.applications.now place it
        → IsCovered look.now.classes.now.lists table.new it) }
{
    let Some(it) = application_at(look.applications, place) else {
        return Ok(None);
    };
    let key = key_of(alloc, look.classes, &it.term)?;
    let m = table.enter(key, it.node)?;
    if look.classes.same(m, it.node) {
        return Ok(None);
    }
    Ok(Some(Found {
        left: m,
        right: it.node,
    }))
}

// Whether a node has arguments.
pub(crate) fn has_args(node: &Node) -> bool
    ensures { IsTrue result ↔ ¬ (node.now.args ≡ []) }
{
    !node.args.as_slice().is_empty()
}

// The key of a node.
fn key_of(alloc: Global, classes: &Classes, node: &Node) -> Result<Node, Memory>
    requires { All (IsActive classes.now.lists) node.now.args }
    ensures { IfOk result (λ key. IsKeyOf classes.now.lists node.now key) }
{
    let nodes = node.args.as_slice();
    let roots = roots_of(alloc, classes, nodes)?;
    let args = Args::from_slice(alloc, roots.as_slice())?;
    Ok(Node {
        head: node.head,
        sort: node.sort,
        args,
    })
}

// The roots of nodes.
fn roots_of(alloc: Global, classes: &Classes, nodes: &[NodeId]) -> Result<List<NodeId>, Memory>
    requires { All (IsActive classes.now.lists) nodes.now }
    ensures { IfOk result (λ roots. AllZip (IsRootOf classes.now.lists) roots nodes.now) }
{
    let mut roots = List::new(alloc);
    let mut rest = nodes;
    while let Some((n, tail)) = rest.split_first() {
        roots.push(classes.root(*n))?;
        rest = tail;
    }
    Ok(roots)
}
