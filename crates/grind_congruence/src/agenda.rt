//! What has to be looked at to find congruent nodes.
ghost use Rattle.std.specs.Prelude.{◌≡◌, ℕ, [], length, IfOk, IfSome, IsNone, IsTrue, OnOk, OnErr, ◌↔◌};
ghost use Rattle.grind_classes.specs.Classes.{IsPartition};
ghost use Rattle.grind_congruence.specs.Marks.{cut};
ghost use Rattle.grind_congruence.specs.Table.{KeepsUp, IsTakenIn, IsTouched, IsWorkedOn, AreFoundAmong};

use crate::application::{Application, copied};
use crate::edge::Found;
use crate::keys::Keys;
use crate::looking::{Look, drain, has_args};
use crate::uses::{copied_uses, note_all, put_all_uses};
use crate::view::Noted;
use grind_classes::Classes;
use grind_outside::{List, Memory};
use grind_term_graph::{Node, NodeId};
use std::alloc::Global;
use std::marker::Model;

// The congruence table, the active nodes with arguments, and the places of those that have to be looked at. The places before
// the cursor were looked at.
#[derive(Drop, Debug)]
pub(crate) struct Agenda {
    table: Keys,
    applications: List<Application>,
    uses: List<List<u32>>,
    work: List<u32>,
    cursor: u32,
}

impl Model for Agenda {
    ghost use Rattle.grind_congruence.specs.Table.{AgendaData, AreNoted};

    ghost Value = { AgendaData };

    ghost view = { λ a. record { table = a.table; applications = a.applications; work = a.work; cursor = a.cursor } };

    ghost invariant = { λ a. AreNoted a.applications a.uses };
}

impl Agenda {
    // No nodes and no keys.
    pub(crate) fn new(alloc: Global) -> Agenda
        ensures { result ≡ record { table = []; applications = []; work = []; cursor = 0 } }
    {
        Agenda {
            table: Keys::new(alloc),
            applications: List::new(alloc),
            uses: List::new(alloc),
            work: List::new(alloc),
            cursor: 0,
        }
    }

    // Takes in a node that becomes active. One with arguments has to be looked at.
    pub(crate) fn take_in(&mut self, alloc: Global, n: NodeId, node: &Node) -> Result<(), Memory>
        ensures ok { OnOk result (IsTakenIn self.old n node.now self.new) }
        ensures err { OnErr result (self.new ≡ self.old) }
    {
        let place = self.applications.len();
        if !has_args(node) {
            return Ok(());
        }
        let term = node.copy(alloc)?;
        note_all(alloc, &mut self.uses, node.args.as_slice(), place as u32)?;
        self.applications.push(Application { node: n, term })?;
        let Ok(()) = self.work.push(place as u32) else {
            self.applications.truncate(place);
            return Err(Memory);
        };
        Ok(())
    }

    // All nodes with an argument among these have to be looked at.
    pub(crate) fn touch(&mut self, nodes: &[NodeId]) -> Result<(), Memory>
        ensures ok { OnOk result (IsTouched self.old nodes.now self.new) }
        ensures err { OnErr result (self.new ≡ self.old) }
    {
        put_all_uses(self.uses.as_slice(), nodes, &mut self.work)?;
        Ok(())
    }

    // Two congruent nodes of different classes, if there are any. What has to be looked at is, up to the first that makes such a
    // pair.
    pub(crate) fn step(&mut self, alloc: Global, classes: &Classes) -> Result<Option<Found>, Memory>
        requires stands { KeepsUp classes.now.lists self.old }
        requires partition { IsPartition classes.now.lists }
        ensures stands { KeepsUp classes.now.lists self.new }
        ensures worked { IsWorkedOn self.old self.new }
        ensures found { IfOk result (λ answer. IfSome answer
            (λ found. AreFoundAmong classes.now.lists self.old.applications found.left found.right)) }
        ensures none { IfOk result (λ answer. IsNone answer → self.new.cursor ≡ length self.new.work) }
    {
        let look = Look {
            classes,
            applications: self.applications.as_slice(),
            work: self.work.as_slice(),
        };
        let answer = drain(alloc, &look, &mut self.table, &mut self.cursor)?;
        Ok(answer)
    }

    // Whether nothing has to be looked at.
    pub(crate) fn is_done(&self) -> bool
        ensures { IsTrue result → self.now.cursor ≡ length self.now.work }
    {
        self.cursor as usize == self.work.len()
    }

    // What a mark notes, where there are so many equations.
    pub(crate) fn noted(&self, edges: u32) -> Noted
        ensures { result ≡ record { edges = edges; keys = length self.now.table; applications = length self.now.applications; work = length self.now.work; cursor = self.now.cursor } }
    {
        Noted {
            edges,
            keys: self.table.len(),
            applications: self.applications.len() as u32,
            work: self.work.len() as u32,
            cursor: self.cursor,
        }
    }

    // Goes back to what a mark noted.
    pub(crate) fn undo(&mut self, noted: Noted)
        ensures { self.new ≡ cut noted self.old }
    {
        self.table.truncate(noted.keys);
        self.applications.truncate(noted.applications as usize);
        self.work.truncate(noted.work as usize);
        self.cursor = noted.cursor;
    }

    // The same once more.
    pub(crate) fn copy(&self, alloc: Global) -> Result<Agenda, Memory>
        ensures { IfOk result (λ agenda. agenda ≡ self.now) }
    {
        let table = self.table.copy(alloc)?;
        let applications = copied(alloc, self.applications.as_slice())?;
        let uses = copied_uses(alloc, self.uses.as_slice())?;
        let mut work = List::new(alloc);
        work.extend(self.work.as_slice())?;
        Ok(Agenda {
            table,
            applications,
            uses,
            work,
            cursor: self.cursor,
        })
    }
}
