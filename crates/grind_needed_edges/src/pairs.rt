//! Pairs of nodes, each with a number.
ghost use Rattle.std.specs.Prelude.{◌≡◌, ℕ, ◌++◌, ◌∷◌, [], Contains, OnOk, OnErr, MatchOption};
ghost use Rattle.grind_needed_edges.specs.Numbered.{pair_of, HasNumber, HasNoNumber, IsNoted};

use grind_outside::Memory;
use grind_term_graph::NodeId;
use indexmap::IndexMap;
use std::alloc::Global;
use std::marker::Model;

/// Two nodes, in order.
#[derive(Clone, Copy, Debug, PartialEq, Eq, Hash)]
pub struct Pair {
    /// The first.
    pub left: NodeId,
    /// The second.
    pub right: NodeId,
}

/// Pairs, each with a number, in the order in which they were put in.
#[derive(Drop, Debug)]
pub struct Pairs {
    map: IndexMap<Pair, u32>,
}

impl Model for Pairs {
    ghost use Rattle.std.specs.Prelude.{ℕ, List};
    ghost use Rattle.grind_needed_edges.specs.declared.pairs.Pair.{Pair};

    ghost Value = { List (Pair × ℕ) };

    ghost view = { λ a. a.map.entries };
}

impl Pairs {
    /// No pairs.
    pub fn new(alloc: Global) -> Pairs
        ensures { result ≡ [] }
    {
        Pairs {
            map: IndexMap::new(alloc),
        }
    }

    /// The number of a pair, if it is there.
    pub fn find(&self, a: NodeId, b: NodeId) -> Option<u32>
        ensures { MatchOption result (HasNoNumber self.now a b) (λ number. Contains self.now (pair_of a b, number)) }
    {
        let pair = Pair { left: a, right: b };
        match self.map.get(&pair) {
            Some(number) => Some(*number),
            None => None,
        }
    }

    /// The number of a pair that is there.
    pub fn number_of(&self, a: NodeId, b: NodeId) -> u32
        requires { HasNumber self.now a b }
        ensures { Contains self.now (pair_of a b, result) }
    {
        match self.find(a, b) {
            Some(number) => number,
            None => 0,
        }
    }

    /// Puts a new pair last.
    ///
    /// # Errors
    ///
    /// `Memory`. The pairs are unchanged then.
    pub fn put(&mut self, a: NodeId, b: NodeId, number: u32) -> Result<(), Memory>
        requires { HasNoNumber self.old a b }
        ensures ok { OnOk result (self.new ≡ self.old ++ (pair_of a b, number) ∷ []) }
        ensures err { OnErr result (self.new ≡ self.old) }
    {
        let pair = Pair { left: a, right: b };
        self.map.insert(pair, number)?;
        Ok(())
    }

    /// Puts a pair last unless it is there already.
    ///
    /// # Errors
    ///
    /// `Memory`.
    pub fn note(&mut self, a: NodeId, b: NodeId, number: u32) -> Result<(), Memory>
        ensures { OnOk result (IsNoted self.old a b number self.new) }
    {
        if let Some(_) = self.find(a, b) {
            return Ok(());
        }
        self.put(a, b, number)?;
        Ok(())
    }
}
