//! The table of terms.
ghost use Rattle.std.specs.Prelude.{◌≡◌, ℕ, ◌<◌, ◌≤◌, ◌^◌, ◌++◌, ◌∷◌, [], Some, None, Ok, length, All, take, slice_get, Contains, IsOk, IfOk, OnOk, OnErr, IsErrOf, IfSome, IsNone, IsSome, ◌↔◌};
ghost use Rattle.grind_term_graph.specs.Terms.{opening, sort_at};
ghost use Rattle.grind_term_graph.specs.Shape.{WellShaped, IsTable, IsBegun};
ghost use Rattle.grind_term_graph.specs.Beginnings.{BeginsWith};
ghost use Rattle.grind_term_graph.specs.Placed.{placed};

use crate::args::Args;
use crate::head::Head;
use crate::ids::{NodeId, SortId};
use crate::node::Node;
use grind_outside::Memory;
use indexmap::IndexSet;
use std::alloc::Global;
use std::marker::Model;

/// Why a node was not stored.
#[derive(Clone, Copy, Debug, PartialEq, Eq)]
pub enum TermRefusal {
    /// The node is absent, and the table holds as many nodes as its limit allows.
    Full,
    /// Out of memory.
    Memory,
}

impl From<Memory> for TermRefusal {
    ghost use Rattle.std.specs.Prelude.{◌≡◌};
    ghost use Rattle.grind_term_graph.specs.declared.table.TermRefusal.{TermRefusal};

    ghost from_gives = { λ _ refusal. refusal ≡ TermRefusal.Memory };

    fn from(_want: Memory) -> TermRefusal {
        TermRefusal::Memory
    }
}

/// A table of terms: node 0 is `True` and node 1 is `False`, the arguments of a node stand before it,
/// and no node stands in it twice.
#[derive(Drop, Debug)]
pub struct TermTable {
    nodes: IndexSet<Node>,
    limit: u32,
}

impl Model for TermTable {
    ghost use Rattle.grind_term_graph.specs.Terms.{Terms};
    ghost use Rattle.grind_term_graph.specs.Shape.{IsTermTable};

    ghost Value = { Terms };

    ghost view = { λ a. record { nodes = a.nodes.keys; limit = a.limit } };

    ghost invariant = { λ a. IsTermTable a.nodes.keys a.limit };
}

impl TermTable {
    /// The table of `True` and `False` alone, for at most `limit` nodes.
    pub fn new(alloc: Global, limit: u32) -> Result<TermTable, Memory>
        requires { 2 ≤ limit }
        ensures { IfOk result (λ table. table ≡ record { nodes = opening; limit = limit }) }
    {
        let mut nodes = IndexSet::new(alloc);
        nodes.insert(plain(alloc, Head::True)?)?;
        nodes.insert(plain(alloc, Head::False)?)?;
        Ok(TermTable { nodes, limit })
    }

    /// The number of a node, which goes last if it is new. A node that stands in the table needs no
    /// memory. After a refusal the table is unchanged.
    ///
    /// # Errors
    ///
    /// `Full` exactly where the node is absent and there are as many nodes as the limit; `Memory` where a
    /// new node finds none.
    pub fn intern(&mut self, _alloc: Global, node: Node) -> Result<NodeId, TermRefusal>
        requires { WellShaped self.old.nodes node }
        ensures placed { IfOk result (λ id. (self.new.nodes, id) ≡ placed self.old.nodes node) }
        ensures stored { IfOk result (λ id. slice_get self.new.nodes id ≡ Some node) }
        ensures number { (id : ℕ) → slice_get self.old.nodes id ≡ Some node → result ≡ Ok id }
        ensures present { Contains self.old.nodes node → IsOk result × (self.new ≡ self.old) }
        ensures appended { OnOk result (¬ Contains self.old.nodes node → self.new.nodes ≡ self.old.nodes ++ node ∷ []) }
        ensures grows { BeginsWith self.old.nodes self.new.nodes }
        ensures limit { self.new.limit ≡ self.old.limit }

        ensures full { IsErrOf result TermRefusal.Full
            ↔ (¬ Contains self.old.nodes node × (length self.old.nodes ≡ self.old.limit)) }
        ensures err { OnErr result (self.new ≡ self.old) }
    {
        if self.nodes.len() < self.limit as usize {
            let place = store(&mut self.nodes, node)?;
            return Ok(NodeId::new(place as u32));
        }
        match position(&self.nodes, &node) {
            Some(place) => Ok(NodeId::new(place as u32)),
            None => Err(TermRefusal::Full),
        }
    }

    /// The number of a node, or None exactly where it is absent.
    pub fn find(&self, node: &Node) -> Option<NodeId>
        ensures placed { IfSome result (λ id. (self.now.nodes, id) ≡ placed self.now.nodes node.now) }
        ensures stored { IfSome result (λ id. slice_get self.now.nodes id ≡ Some node.now) }
        ensures number { (id : ℕ) → slice_get self.now.nodes id ≡ Some node.now → result ≡ Some id }
        ensures none { IsNone result ↔ ¬ Contains self.now.nodes node.now }
    {
        match position(&self.nodes, node) {
            Some(place) => Some(NodeId::new(place as u32)),
            None => None,
        }
    }

    /// The node of a number. Its arguments have lower numbers.
    pub fn node(&self, id: NodeId) -> &Node
        requires { id < length self.now.nodes }
        ensures value { slice_get self.now.nodes id ≡ Some result.now }
        ensures shape { WellShaped (take id self.now.nodes) result.now }
        ensures lower { All (λ arg. arg < id) result.now.args }
    {
        &self.nodes.as_slice()[id.number() as usize]
    }

    /// The sort of the node of a number.
    pub fn sort(&self, id: NodeId) -> SortId
        requires { id < length self.now.nodes }
        ensures { sort_at self.now.nodes id ≡ Some result }
    {
        self.node(id).sort
    }

    /// How many nodes there are.
    pub fn len(&self) -> u32
        ensures value { result ≡ length self.now.nodes }
        ensures bound { length self.now.nodes ≤ self.now.limit }
        ensures limit { self.now.limit < 2 ^ 32 }
        ensures begins { IsBegun self.now.nodes }
        ensures table { IsTable [] self.now.nodes }
    {
        self.nodes.len() as u32
    }

    /// How many nodes fit.
    pub fn limit(&self) -> u32
        ensures value { result ≡ self.now.limit }
        ensures bound { length self.now.nodes ≤ self.now.limit }
    {
        self.limit
    }

    /// A table of the same nodes, for at most `limit` of them.
    pub fn copy(&self, alloc: Global, limit: u32) -> Result<TermTable, Memory>
        requires { length self.now.nodes ≤ limit }
        ensures { IfOk result (λ table. table ≡ record { nodes = self.now.nodes; limit = limit }) }
    {
        let nodes = copied(alloc, self.nodes.as_slice())?;
        Ok(TermTable { nodes, limit })
    }
}

// Puts a node among others, last if it is new, and answers its position.
fn store(nodes: &mut IndexSet<Node>, node: Node) -> Result<usize, Memory>
    ensures placed { IfOk result (λ place. (nodes.new.keys, place) ≡ placed nodes.old.keys node) }
    ensures stored { IfOk result (λ place. slice_get nodes.new.keys place ≡ Some node) }
    ensures within { IfOk result (λ place. place < length nodes.new.keys) }
    ensures present { Contains nodes.old.keys node → IsOk result × (nodes.new.keys ≡ nodes.old.keys) }
    ensures appended { OnOk result (¬ Contains nodes.old.keys node → nodes.new.keys ≡ nodes.old.keys ++ node ∷ []) }
    ensures grows { BeginsWith nodes.old.keys nodes.new.keys }
    ensures err { OnErr result (nodes.new.keys ≡ nodes.old.keys) }
{
    let (place, _) = nodes.insert_full(node)?;
    Ok(place)
}

// Where a node stands among others.
fn position(nodes: &IndexSet<Node>, node: &Node) -> Option<usize>
    ensures placed { IfSome result (λ place. (nodes.now.keys, place) ≡ placed nodes.now.keys node.now) }
    ensures stored { IfSome result (λ place. slice_get nodes.now.keys place ≡ Some node.now) }
    ensures within { IfSome result (λ place. place < length nodes.now.keys) }
    ensures present { IsSome result ↔ Contains nodes.now.keys node.now }
{
    nodes.get_index_of(node)
}

// A copy of nodes none of which stands there twice.
fn copied(alloc: Global, nodes: &[Node]) -> Result<IndexSet<Node>, Memory>
    requires { IsTable [] nodes.now }
    ensures { IfOk result (λ copies. copies.keys ≡ nodes.now) }
{
    let mut copies = IndexSet::with_capacity(alloc, nodes.len())?;
    let mut rest = nodes;
    while let Some((node, tail)) = rest.split_first() {
        append(alloc, &mut copies, node)?;
        rest = tail;
    }
    Ok(copies)
}

// Puts a copy of a new node at the end.
fn append(alloc: Global, nodes: &mut IndexSet<Node>, node: &Node) -> Result<(), Memory>
    requires { ¬ Contains nodes.old.keys node.now }
    ensures { OnOk result (nodes.new.keys ≡ nodes.old.keys ++ node.now ∷ []) }
{
    let node = node.copy(alloc)?;
    store(nodes, node)?;
    Ok(())
}

// The node of a head without arguments and of sort Prop.
fn plain(alloc: Global, head: Head) -> Result<Node, Memory>
    ensures { IfOk result (λ node. node ≡ record { head = head; sort = 0; args = [] }) }
{
    let args = Args::from_slice(alloc, &[])?;
    Ok(Node {
        head,
        sort: SortId::PROP,
        args,
    })
}
