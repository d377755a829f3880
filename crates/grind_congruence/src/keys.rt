//! The table of keys.
ghost use Rattle.std.specs.Prelude.{◌≡◌, ℕ, [], length, take, Contains, IfOk, OnErr, MatchOption};
ghost use Rattle.grind_congruence.specs.Table.{IsEntered};

use grind_outside::Memory;
use grind_term_graph::{Node, NodeId};
use indexmap::IndexMap;
use std::alloc::Global;
use std::marker::Model;

// Keys, each with a node, in the order in which they were entered.
#[derive(Drop, Debug)]
pub(crate) struct Keys {
    map: IndexMap<Node, NodeId>,
}

impl Model for Keys {
    ghost use Rattle.std.specs.Prelude.{ℕ, List};
    ghost use Rattle.grind_term_graph.specs.declared.node.Node.{Node};

    ghost Value = { List (Node × ℕ) };

    ghost view = { λ a. a.map.entries };
}

impl Keys {
    // No keys.
    pub(crate) fn new(alloc: Global) -> Keys
        ensures { result ≡ [] }
    {
        Keys {
            map: IndexMap::new(alloc),
        }
    }

    // How many keys there are.
    pub(crate) fn len(&self) -> usize
        ensures { result ≡ length self.now }
    {
        self.map.len()
    }

    // The node of a key, if it is there.
    fn find(&self, key: &Node) -> Option<NodeId>
        ensures { MatchOption result ((m : ℕ) → ¬ Contains self.now (key.now, m)) (λ m. Contains self.now (key.now, m)) }
    {
        match self.map.get(key) {
            Some(m) => Some(*m),
            None => None,
        }
    }

    // The node of a key. A new key goes last, with the given node.
    pub(crate) fn enter(&mut self, key: Node, n: NodeId) -> Result<NodeId, Memory>
        ensures ok { IfOk result (λ m. IsEntered self.old key n m self.new) }
        ensures err { OnErr result (self.new ≡ self.old) }
    {
        if let Some(m) = self.find(&key) {
            return Ok(m);
        }
        self.map.insert(key, n)?;
        Ok(n)
    }

    // Keeps the first keys, so many of them.
    pub(crate) fn truncate(&mut self, len: usize)
        ensures { self.new ≡ take len self.old }
    {
        self.map.truncate(len);
    }

    // The same keys once more.
    pub(crate) fn copy(&self, alloc: Global) -> Result<Keys, Memory>
        ensures { IfOk result (λ keys. keys ≡ self.now) }
    {
        let mut keys = Keys::new(alloc);
        let _count = self.map.len();
        let mut rest = self.map.as_slice();
        while let Some(((key, n), tail)) = rest.split_first() {
            let key = key.copy(alloc)?;
            keys.enter(key, *n)?;
            rest = tail;
        }
        Ok(keys)
    }
}
