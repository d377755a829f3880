//! The arguments of a node.
ghost use Rattle.std.specs.Prelude.{◌≡◌, ◌≤◌, length, IsOk, IfOk, nat_eq};
ghost use Rattle.std.specs.Cmp.{on_equiv, on_per};
ghost use Rattle.std.specs.Cmp.Lexicographic.{pointwise, lists_per, lists_equiv, nat_list_eq_equiv};
ghost use Rattle.std.specs.Hash as fed;
ghost use Rattle.std.specs.Cmp.Rules.{comparing, hashing};
ghost use Rattle.std.proofs.Common.{rules};

use crate::ids::NodeId;
use grind_outside::Memory;
use smallvec::SmallVec;
use std::alloc::Global;
use std::hash::{Hash, Hasher};
use std::marker::Model;

/// Up to sixteen node numbers, in order. Contracts see the list of them. Four need no memory of their own.
#[derive(Drop, Debug)]
pub struct Args {
    nodes: SmallVec<NodeId, 4>,
}

impl Model for Args {
    ghost use Rattle.std.specs.Prelude.{ℕ, List, length, ◌≤◌};

    ghost Value = { List ℕ };

    ghost view = { λ a. a.nodes.items };

    ghost invariant = { λ a. length a.nodes.items ≤ 16 };
}

impl Args {
    /// The arguments of these numbers. At most four of them are never refused.
    pub fn from_slice(alloc: Global, nodes: &[NodeId]) -> Result<Args, Memory>
        requires { length nodes.now ≤ 16 }
        ensures ok { IfOk result (λ args. args ≡ nodes.now) }
        ensures succeeds { length nodes.now ≤ 4 → IsOk result }
    {
        let nodes = SmallVec::from_slice(alloc, nodes)?;
        Ok(Args { nodes })
    }

    /// The node numbers, in order.
    pub fn as_slice(&self) -> &[NodeId]
        ensures value { result.now ≡ self.now }
        ensures bound { length self.now ≤ 16 }
    {
        self.nodes.as_slice()
    }

    /// The same arguments once more. At most four of them are never refused.
    pub fn copy(&self, alloc: Global) -> Result<Args, Memory>
        ensures ok { IfOk result (λ args. args ≡ self.now) }
        ensures succeeds { length self.now ≤ 4 → IsOk result }
    {
        Args::from_slice(alloc, self.as_slice())
    }
}

impl PartialEq for Args {
    ghost eq = { pointwise nat_eq };

    ghost laws = { Prim.search (comparing, rules) };

    fn eq(&self, other: &Args) -> bool {
        self.as_slice() == other.as_slice()
    }
}

impl Eq for Args {
    ghost laws = { nat_list_eq_equiv };
}

impl Hash for Args {
    ghost hash_input = { fed.slice fed.u32 };

    ghost respects_eq = { Prim.search (hashing, rules) };

    fn hash<H: Hasher>(&self, state: &mut H) {
        self.as_slice().hash(state);
    }
}
