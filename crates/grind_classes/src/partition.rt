//! Member lists with the roots beside them.
ghost use Rattle.std.specs.Prelude.{◌≡◌, ◌≢◌, ℕ, ◌<◌, ◌^◌, [], length, take, slice_set, IfOk, OnOk, OnErr, IsTrue, ◌↔◌};
ghost use Rattle.grind_classes.specs.Classes.{members_of, IsIn, IsActive, AreTogether, IsPartition, with_class, joined};
ghost use Rattle.grind_classes.specs.Trail.{parted, undone, WasAlone, WasJoined, WasMade};

use crate::change::Change;
use crate::lists::{append_list, copied, make_room, members, put_apart};
use crate::roots::{reach, repoint, root_of};
use grind_outside::{List, Memory};
use grind_term_graph::NodeId;
use std::alloc::Global;
use std::marker::Model;

// Classes without their trail. Contracts see the list of the member lists, by root.
#[derive(Drop, Debug)]
pub(crate) struct Partition {
    lists: List<List<NodeId>>,
    roots: List<Option<NodeId>>,
}

impl Model for Partition {
    ghost use Rattle.std.specs.Prelude.{ℕ, List};
    ghost use Rattle.grind_classes.specs.Roots.{AreTied};

    ghost Value = { List (List ℕ) };

    ghost view = { λ a. a.lists };

    ghost invariant = { λ a. AreTied a.lists a.roots };
}

impl Partition {
    // No classes.
    pub(crate) fn new(alloc: Global) -> Partition
        ensures { result ≡ [] }
    {
        Partition {
            lists: List::new(alloc),
            roots: List::new(alloc),
        }
    }

    // How many lists there are.
    pub(crate) fn len(&self) -> u32
        ensures value { result ≡ length self.now }
        ensures partition { IsPartition self.now }
    {
        self.lists.len() as u32
    }

    // Makes a class of one node.
    pub(crate) fn activate(&mut self, alloc: Global, n: NodeId) -> Result<(), Memory>
        requires { ¬ IsActive self.old n }
        ensures ok { OnOk result (self.new ≡ with_class self.old n) }
        ensures partition { IsPartition self.new }
        ensures err { OnErr result (self.new ≡ self.old) }
    {
        let _lists = &self.lists;
        let mut own = List::new(alloc);
        own.push(n)?;
        reach(&mut self.roots, n)?;
        make_room(alloc, &mut self.lists, n)?;
        self.lists.set(n.number() as usize, own);
        self.roots.set(n.number() as usize, Some(n));
        Ok(())
    }

    // Whether a node is in a class.
    pub(crate) fn is_active(&self, n: NodeId) -> bool
        ensures value { IsTrue result ↔ IsActive self.now n }
        ensures partition { IsPartition self.now }
    {
        root_of(self.roots.as_slice(), n).is_some()
    }

    // The root of the class of a node: its first member.
    pub(crate) fn root(&self, n: NodeId) -> NodeId
        requires { IsActive self.now n }
        ensures within { IsIn self.now result n }
        ensures own { IsIn self.now result result }
        ensures together { (m : ℕ) → AreTogether self.now n m ↔ IsIn self.now result m }
        ensures partition { IsPartition self.now }
    {
        match root_of(self.roots.as_slice(), n) {
            Some(root) => root,
            None => n,
        }
    }

    // The members of the class of a root, the root first.
    pub(crate) fn members(&self, root: NodeId) -> &[NodeId]
        requires { IsIn self.now root root }
        ensures value { result.now ≡ members_of self.now root }
        ensures bound { length result.now < 2 ^ 32 }
    {
        members(self.lists.as_slice(), root)
    }

    // Appends the members of the class of one root to those of another, and gives back the list of those that moved.
    pub(crate) fn append(
        &mut self,
        alloc: Global,
        kept: NodeId,
        gone: NodeId,
    ) -> Result<List<NodeId>, Memory>
        requires kept { IsIn self.old kept kept }
        requires gone { IsIn self.old gone gone }
        requires apart { kept ≢ gone }
        ensures lists { OnOk result (self.new ≡ joined self.old kept gone) }
        ensures moved { IfOk result (λ moved. moved ≡ members_of self.old gone) }
        ensures partition { IsPartition self.old }
        ensures err { OnErr result (self.new ≡ self.old) }
    {
        let moved = append_list(alloc, &mut self.lists, kept, gone)?;
        repoint(&mut self.roots, moved.as_slice(), kept);
        Ok(moved)
    }

    // Undoes a change that was the last.
    pub(crate) fn undo(&mut self, change: Change)
        requires { WasMade change self.old }
        ensures { self.new ≡ undone change self.old }
    {
        match change {
            Change::Activated { node, len, blank } => self.deactivate(node, len, blank),
            Change::Joined { kept, gone, moved } => self.part(kept, gone, moved),
        }
    }

    // Takes away the class of a node that was activated last.
    fn deactivate(&mut self, node: NodeId, len: u32, blank: List<NodeId>)
        requires { WasAlone node len blank self.old }
        ensures { self.new ≡ take len (slice_set self.old node blank) }
    {
        self.lists.set(node.number() as usize, blank);
        self.lists.truncate(len as usize);
        self.roots.set(node.number() as usize, None);
    }

    // Gives the members that were appended last to another class back to the class of their root.
    fn part(&mut self, kept: NodeId, gone: NodeId, moved: List<NodeId>)
        requires { WasJoined kept gone moved self.old }
        ensures { self.new ≡ parted self.old kept gone moved }
    {
        repoint(&mut self.roots, moved.as_slice(), gone);
        put_apart(&mut self.lists, kept, gone, moved);
    }

    // The same classes once more.
    pub(crate) fn copy(&self, alloc: Global) -> Result<Partition, Memory>
        ensures { IfOk result (λ classes. classes ≡ self.now) }
    {
        let lists = copied(alloc, self.lists.as_slice())?;
        let mut roots = List::new(alloc);
        roots.extend(self.roots.as_slice())?;
        Ok(Partition { lists, roots })
    }
}
