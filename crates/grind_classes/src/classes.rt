//! Classes of nodes.
ghost use Rattle.std.specs.Prelude.{◌≡◌, ◌≢◌, ℕ, ◌<◌, ◌≤◌, ◌^◌, ◌∷◌, ◌++◌, [], Some, length, take, slice_get, IfOk, OnOk, OnErr, IsTrue, ◌↔◌, ◌⊎◌};
ghost use Rattle.grind_classes.specs.Classes.{members_of, IsIn, IsActive, AreTogether, IsPartition, with_class, joined, IsMerge, AreMergedAt};

use crate::change::Change;
use crate::partition::Partition;
use crate::trail::{copied, rewind};
use grind_outside::{List, Memory};
use grind_term_graph::NodeId;
use grind_undo_trail::{Mark, Undo};
use std::alloc::Global;
use std::marker::Model;

/// What a merge did: the root of the class that came of it, and how many nodes have a new root.
#[derive(Clone, Copy, Debug, PartialEq, Eq)]
pub struct Merged {
    /// The root of the joined class.
    pub root: NodeId,
    /// The number of members that were appended to the others.
    pub moved: u32,
}

/// Classes of nodes. Contracts see the member lists, by root, and those at each mark in force.
#[derive(Drop, Debug)]
pub struct Classes {
    parts: Partition,
    trail: List<Change>,
    marks: List<u32>,
}

impl Model for Classes {
    ghost use Rattle.grind_classes.specs.Classes.{Grouping};
    ghost use Rattle.grind_classes.specs.Trail.{marked_lists, IsUndoable};

    ghost Value = { Grouping };

    ghost view = { λ a. record { lists = a.parts; marked = marked_lists a.parts a.trail a.marks } };

    ghost invariant = { λ a. IsUndoable a.parts a.trail a.marks };
}

impl Classes {
    /// No classes. It takes no memory.
    pub fn new(alloc: Global) -> Classes
        ensures { result ≡ record { lists = []; marked = [] } }
    {
        Classes {
            parts: Partition::new(alloc),
            trail: List::new(alloc),
            marks: List::new(alloc),
        }
    }

    /// Makes a class of one node.
    ///
    /// # Errors
    ///
    /// `Memory` leaves the classes as they were.
    pub fn activate(&mut self, alloc: Global, n: NodeId) -> Result<(), Memory>
        requires { ¬ IsActive self.old.lists n }
        ensures ok { OnOk result (self.new.lists ≡ with_class self.old.lists n) }
        ensures active { OnOk result ((x : ℕ) → IsActive self.new.lists x ↔ (IsActive self.old.lists x ⊎ (x ≡ n))) }
        ensures together { OnOk result ((x y : ℕ) → AreTogether self.new.lists x y
            ↔ (AreTogether self.old.lists x y ⊎ ((x ≡ n) × (y ≡ n)))) }
        ensures partition { IsPartition self.new.lists }
        ensures marked { self.new.marked ≡ self.old.marked }
        ensures err { OnErr result (self.new ≡ self.old) }
    {
        let len = self.parts.len();
        self.trail.push(Change::Activated {
            node: n,
            len,
            blank: List::new(alloc),
        })?;
        match self.parts.activate(alloc, n) {
            Ok(()) => Ok(()),
            Err(_) => {
                let _change = self.trail.pop();
                Err(Memory)
            }
        }
    }

    /// Whether a node is in a class.
    pub fn is_active(&self, n: NodeId) -> bool
        ensures value { IsTrue result ↔ IsActive self.now.lists n }
        ensures partition { IsPartition self.now.lists }
    {
        self.parts.is_active(n)
    }

    /// The root of the class of a node: its first member.
    pub fn root(&self, n: NodeId) -> NodeId
        requires { IsActive self.now.lists n }
        ensures within { IsIn self.now.lists result n }
        ensures own { IsIn self.now.lists result result }
        ensures together { (m : ℕ) → AreTogether self.now.lists n m ↔ IsIn self.now.lists result m }
        ensures partition { IsPartition self.now.lists }
    {
        self.parts.root(n)
    }

    /// Whether two nodes are in one class.
    pub fn same(&self, a: NodeId, b: NodeId) -> bool
        requires first { IsActive self.now.lists a }
        requires second { IsActive self.now.lists b }
        ensures { IsTrue result ↔ AreTogether self.now.lists a b }
    {
        self.root(a) == self.root(b)
    }

    /// The members of the class of a root, the root first.
    pub fn members(&self, root: NodeId) -> &[NodeId]
        requires { IsIn self.now.lists root root }
        ensures value { result.now ≡ members_of self.now.lists root }
        ensures bound { length result.now < 2 ^ 32 }
    {
        self.parts.members(root)
    }

    /// Joins two classes: the smaller is appended to the larger, and where they are of one size, that of
    /// `b` to that of `a`. `why` is the number of the fact that says so.
    ///
    /// # Errors
    ///
    /// `Memory` leaves the classes as they were.
    pub fn merge(
        &mut self,
        alloc: Global,
        a: NodeId,
        b: NodeId,
        _why: u32,
    ) -> Result<Merged, Memory>
        requires first { IsActive self.old.lists a }
        requires second { IsActive self.old.lists b }
        requires apart { ¬ AreTogether self.old.lists a b }
        ensures lists { IfOk result (λ merged. (ra rb : ℕ) → IsIn self.old.lists ra a → IsIn self.old.lists rb b
            → IsMerge self.old.lists ra rb self.new.lists merged.root merged.moved) }
        ensures together { OnOk result ((x y : ℕ) → AreMergedAt self.old.lists a b self.new.lists x y) }
        ensures active { OnOk result ((x : ℕ) → IsActive self.new.lists x ↔ IsActive self.old.lists x) }
        ensures partition { IsPartition self.new.lists }
        ensures marked { self.new.marked ≡ self.old.marked }
        ensures err { OnErr result (self.new ≡ self.old) }
    {
        let left = self.root(a);
        let right = self.root(b);
        if self.members(right).len() <= self.members(left).len() {
            let moved = self.append(alloc, left, right)?;
            return Ok(Merged { root: left, moved });
        }
        let moved = self.append(alloc, right, left)?;
        Ok(Merged { root: right, moved })
    }

    // Appends the members of the class of one root to those of another, and answers their number.
    fn append(&mut self, alloc: Global, kept: NodeId, gone: NodeId) -> Result<u32, Memory>
        requires kept { IsIn self.old.lists kept kept }
        requires gone { IsIn self.old.lists gone gone }
        requires apart { kept ≢ gone }
        ensures lists { OnOk result (self.new.lists ≡ joined self.old.lists kept gone) }
        ensures count { IfOk result (λ moved. moved ≡ length (members_of self.old.lists gone)) }
        ensures marked { self.new.marked ≡ self.old.marked }
        ensures err { OnErr result (self.new ≡ self.old) }
    {
        let last = self.trail.len();
        self.trail.push(Change::Joined {
            kept,
            gone,
            moved: List::new(alloc),
        })?;
        match self.parts.append(alloc, kept, gone) {
            Ok(moved) => {
                let count = moved.len() as u32;
                self.trail.set(last, Change::Joined { kept, gone, moved });
                Ok(count)
            }
            Err(_) => {
                self.trail.truncate(last);
                Err(Memory)
            }
        }
    }

    /// The same classes once more, with the same marks.
    pub fn copy(&self, alloc: Global) -> Result<Classes, Memory>
        ensures { IfOk result (λ classes. classes ≡ self.now) }
    {
        let parts = self.parts.copy(alloc)?;
        let trail = copied(alloc, self.trail.as_slice())?;
        let mut marks = List::new(alloc);
        marks.extend(self.marks.as_slice())?;
        Ok(Classes {
            parts,
            trail,
            marks,
        })
    }
}

impl Undo for Classes {
    type View = List<List<NodeId>>;

    ghost present = { λ it. it.lists };

    ghost marked = { λ it. it.marked };

    fn mark(&mut self, alloc: Global) -> Result<Mark, Memory> {
        let place = self.marks.len() as u32;
        self.marks.push(self.trail.len() as u32)?;
        Ok(Mark::new(place))
    }

    fn undo(&mut self, mark: Mark) {
        let place = mark.number() as usize;
        let len = self.marks.as_slice()[place] as usize;
        rewind(&mut self.parts, &mut self.trail, len);
        self.marks.truncate(place);
    }
}
