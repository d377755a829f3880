//! A forest over the roots of classes.
ghost use Rattle.std.specs.Prelude.{◌≡◌, ◌≢◌, ◌<◌, ◌^◌, ◌++◌, ◌∷◌, [], ℕ, Some, length, slice_get, take, IfOk, OnOk, OnErr, MatchOption};
ghost use Rattle.grind_congruence.specs.Forest.{climbed, IsForest, IsNeverGone, IsGoneAt};

use crate::lost::{entry_of, reach};
use grind_outside::{List, Memory};
use grind_term_graph::NodeId;
use std::alloc::Global;
use std::marker::Model;

// What an equation joined: the root that lost its place, the root that stays, and the two nodes of the equation, that in the
// class of the first root and that in the class of the second.
#[derive(Clone, Copy, Debug)]
pub(crate) struct Join {
    pub(crate) gone: NodeId,
    pub(crate) kept: NodeId,
    pub(crate) from: NodeId,
    pub(crate) to: NodeId,
}

// The trees of the classes: a root that lost its place hangs below the root that stayed. Contracts see the list of the joins,
// one for each equation.
#[derive(Drop, Debug)]
pub(crate) struct Forest {
    joins: List<Join>,
    // for a node that lost its place as a root, the place of the join; an entry of a join that was undone is stale
    lost: List<Option<u32>>,
}

impl Model for Forest {
    ghost use Rattle.std.specs.Prelude.{List};
    ghost use Rattle.grind_congruence.specs.declared.forest.Join.{Join};
    ghost use Rattle.grind_congruence.specs.Forest.{AreFound};

    ghost Value = { List Join };

    ghost view = { λ a. a.joins };

    ghost invariant = { λ a. AreFound a.joins a.lost };
}

impl Forest {
    // No joins.
    pub(crate) fn new(alloc: Global) -> Forest
        ensures { result ≡ [] }
    {
        Forest {
            joins: List::new(alloc),
            lost: List::new(alloc),
        }
    }

    // Appends a join of two roots.
    pub(crate) fn push(&mut self, join: Join) -> Result<(), Memory>
        requires gone { IsNeverGone self.old join.gone }
        requires kept { IsNeverGone self.old join.kept }
        requires differ { join.gone ≢ join.kept }
        ensures ok { OnOk result (self.new ≡ self.old ++ join ∷ []) }
        ensures err { OnErr result (self.new ≡ self.old) }
    {
        let place = self.joins.len() as u32;
        let gone = join.gone;
        reach(&mut self.lost, gone)?;
        self.joins.push(join)?;
        self.lost.set(gone.number() as usize, Some(place));
        Ok(())
    }

    // Keeps the first joins, so many of them.
    pub(crate) fn truncate(&mut self, len: u32)
        ensures { self.new ≡ take len self.old }
    {
        self.joins.truncate(len as usize);
    }

    // The place of the join in which a node lost its place as a root, if there is one.
    pub(crate) fn lost_at(&self, n: NodeId) -> Option<u32>
        ensures { MatchOption result (IsNeverGone self.now n) (λ place. IsGoneAt self.now n place) }
    {
        let Some(place) = entry_of(self.lost.as_slice(), n) else {
            return None;
        };
        let Some(join) = self.joins.as_slice().get(place as usize) else {
            return None;
        };
        if join.gone == n {
            return Some(place);
        }
        None
    }

    // The joins, in order.
    pub(crate) fn joins(&self) -> &[Join]
        ensures value { result.now ≡ self.now }
        ensures bound { length result.now < 2 ^ 32 }
        ensures forest { IsForest self.now }
    {
        self.joins.as_slice()
    }

    // The root of the tree of a node.
    pub(crate) fn top(&self, n: NodeId) -> NodeId
        ensures value { result ≡ climbed n self.now }
        ensures root { IsNeverGone self.now result }
    {
        let mut top = n;
        let mut count: u32 = 0;
        while let Some(place) = self.lost_at(top) {
            top = self.joins()[place as usize].kept;
            count = place + 1;
        }
        top
    }

    // The same forest once more.
    pub(crate) fn copy(&self, alloc: Global) -> Result<Forest, Memory>
        ensures { IfOk result (λ forest. forest ≡ self.now) }
    {
        let mut joins = List::new(alloc);
        joins.extend(self.joins.as_slice())?;
        let mut lost = List::new(alloc);
        lost.extend(self.lost.as_slice())?;
        Ok(Forest { joins, lost })
    }
}
