//! A node of a term table.
ghost use Rattle.std.specs.Prelude.{◌≡◌, ◌≤◌, ◌↔◌, length, IsOk, IfOk, IsTrue};
ghost use Rattle.grind_term_graph.specs.Same.{is_same_node};

use crate::args::Args;
use crate::head::Head;
use crate::ids::SortId;
use grind_outside::Memory;
use std::alloc::Global;

/// A term: its head, its sort, and its arguments as the numbers of nodes.
#[derive(Drop, Debug, PartialEq, Eq, Hash)]
pub struct Node {
    /// The outermost symbol.
    pub head: Head,
    /// The sort of the term.
    pub sort: SortId,
    /// The arguments, in order.
    pub args: Args,
}

impl Node {
    /// The same node once more. A node of at most four arguments is never refused.
    pub fn copy(&self, alloc: Global) -> Result<Node, Memory>
        ensures ok { IfOk result (λ node. node ≡ self.now) }
        ensures succeeds { length self.now.args ≤ 4 → IsOk result }
    {
        let args = self.args.copy(alloc)?;
        Ok(Node {
            head: self.head,
            sort: self.sort,
            args,
        })
    }

    /// Whether the other is the same node: of the same head, sort and arguments.
    pub fn is_same(&self, other: &Node) -> bool
        ensures value { result ≡ is_same_node self.now other.now }
        ensures exact { IsTrue result ↔ (self.now ≡ other.now) }
    {
        self == other
    }
}
