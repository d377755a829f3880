//! A closure under congruence.
ghost use Rattle.std.specs.Prelude.{◌≡◌, ℕ, ◌<◌, ◌^◌, ◌++◌, ◌∷◌, [], Some, All, length, slice_get, IfOk, IfSome, IsNone, OnOk, OnErr, IsTrue, ◌↔◌, ◌⊎◌};
ghost use Rattle.grind_term_graph.specs.declared.node.Node.{Node};
ghost use Rattle.grind_classes.specs.Classes.{IsActive, AreTogether, AreApart, with_class};
ghost use Rattle.grind_congruence.specs.Congruence.{AreCongruent, Fits, FitsEvery, IsAtRest};
ghost use Rattle.grind_congruence.specs.Edges.{AreClassesOf, Leads, Joins};
ghost use Rattle.grind_congruence.specs.Exact.{ExactAtRest, FitsLonger};
ghost use Rattle.grind_congruence.specs.Asserted.{IsJoined, IsActivated};
ghost use Rattle.grind_congruence.specs.Table.{IsLonger, HasTrueKeys};

use crate::agenda::Agenda;
use crate::changing::{enlist, merge};
use crate::edge::{Edge, Found};
use crate::forest::Forest;
use crate::joining::join_of;
use crate::legs::tree_way;
use crate::search::find_pair;
use crate::view::{ClosureView, Noted};
use grind_classes::Classes;
use grind_outside::{List, Memory};
use grind_term_graph::{NodeId, TermTable};
use grind_undo_trail::{Mark, Undo};
use std::alloc::Global;
use std::marker::Model;

/// The classes of active nodes, the equations that made them, and a table of keys by which congruent
/// nodes are found (Nelson and Oppen, 1980). Contracts see the member lists, the equations, the table and
/// the active nodes with arguments, and these at each mark in force.
#[derive(Drop, Debug)]
pub struct Closure {
    classes: Classes,
    edges: List<Edge>,
    forest: Forest,
    agenda: Agenda,
    marks: List<Noted>,
}

impl Model for Closure {
    ghost use Rattle.grind_congruence.specs.Congruence.{Congruence};
    ghost use Rattle.grind_congruence.specs.Marks.{value_of, IsKept};
    ghost use Rattle.grind_congruence.specs.Forest.{AreJoinedBy};

    ghost Value = { Congruence };

    ghost view = { λ a. value_of a.classes a.edges a.agenda a.marks };

    ghost invariant = { λ a. IsKept a.classes a.edges a.agenda a.marks × AreJoinedBy a.edges a.forest };
}

impl Closure {
    /// No active nodes and no equations. It fits every table and takes no memory.
    pub fn new(alloc: Global) -> Closure
        ensures value { result ≡ record { lists = []; edges = []; table = []; applications = []; marked = [] } }
        ensures fits { FitsEvery result }
    {
        Closure {
            classes: Classes::new(alloc),
            edges: List::new(alloc),
            forest: Forest::new(alloc),
            agenda: Agenda::new(alloc),
            marks: List::new(alloc),
        }
    }

    /// Makes a class of one node of the table, whose arguments are active.
    ///
    /// # Errors
    ///
    /// `Memory` leaves the closure as it was.
    pub fn activate(&mut self, alloc: Global, terms: &TermTable, n: NodeId) -> Result<(), Memory>
        requires fits { Fits self.old terms.now.nodes }
        requires within { n < length terms.now.nodes }
        requires new { ¬ IsActive self.old.lists n }
        requires args { (node : Node) → slice_get terms.now.nodes n ≡ Some node → All (IsActive self.old.lists) node.args }
        ensures ok { OnOk result (self.new.lists ≡ with_class self.old.lists n) }
        ensures active { OnOk result ((x : ℕ) → IsActive self.new.lists x ↔ (IsActive self.old.lists x ⊎ (x ≡ n))) }
        ensures together { OnOk result ((x y : ℕ) → AreTogether self.new.lists x y
            ↔ (AreTogether self.old.lists x y ⊎ ((x ≡ n) × (y ≡ n)))) }
        ensures edges { self.new.edges ≡ self.old.edges }
        ensures table { self.new.table ≡ self.old.table }
        ensures applications { OnOk result (IsActivated self.old self.new terms.now.nodes n) }
        ensures marked { self.new.marked ≡ self.old.marked }
        ensures fits { Fits self.new terms.now.nodes }
        ensures err { OnErr result (self.new ≡ self.old) }
    {
        let node = terms.node(n);
        enlist(alloc, &mut self.classes, &mut self.agenda, n, node)?;
        Ok(())
    }

    /// Makes two active nodes equal. Where they are in different classes it joins these and keeps the
    /// equation, with the nodes in this order; else it changes nothing. `why` is the number of the fact
    /// that says so.
    ///
    /// # Errors
    ///
    /// `Memory` leaves the closure as it was.
    pub fn assert_same(
        &mut self,
        alloc: Global,
        terms: &TermTable,
        a: NodeId,
        b: NodeId,
        why: u32,
    ) -> Result<(), Memory>
        requires fits { Fits self.old terms.now.nodes }
        requires first { IsActive self.old.lists a }
        requires second { IsActive self.old.lists b }
        ensures together { OnOk result (AreTogether self.old.lists a b → self.new ≡ self.old) }
        ensures joined { OnOk result (¬ AreTogether self.old.lists a b → IsJoined self.old self.new a b why) }
        ensures marked { self.new.marked ≡ self.old.marked }
        ensures fits { Fits self.new terms.now.nodes }
        ensures err { OnErr result (self.new ≡ self.old) }
    {
        if self.classes.same(a, b) {
            return Ok(());
        }
        let join = join_of(&self.classes, &self.forest, a, b);
        let len = self.edges.len();
        let edge = Edge {
            left: a,
            right: b,
            why,
        };
        self.edges.push(edge)?;
        let Ok(()) = self.forest.push(join) else {
            self.edges.truncate(len);
            return Err(Memory);
        };
        match merge(alloc, &mut self.classes, &mut self.agenda, &edge) {
            Ok(()) => Ok(()),
            Err(_) => {
                self.edges.truncate(len);
                self.forest.truncate(len as u32);
                Err(Memory)
            }
        }
    }

    /// Two active nodes that are congruent and in different classes. `None` comes exactly where the
    /// closure is at rest. Keys may have been entered after those of the table.
    ///
    /// # Errors
    ///
    /// `Memory`.
    pub fn step(&mut self, alloc: Global, terms: &TermTable) -> Result<Option<Found>, Memory>
        requires fits { Fits self.old terms.now.nodes }
        ensures left { IfOk result (λ answer. IfSome answer (λ found. IsActive self.old.lists found.left)) }
        ensures right { IfOk result (λ answer. IfSome answer (λ found. IsActive self.old.lists found.right)) }
        ensures congruent { IfOk result (λ answer. IfSome answer
            (λ found. AreCongruent self.old.lists terms.now.nodes found.left found.right)) }
        ensures apart { IfOk result (λ answer. IfSome answer
            (λ found. ¬ AreTogether self.old.lists found.left found.right)) }
        ensures rest { IfOk result (λ answer. IsNone answer ↔ IsAtRest self.old.lists terms.now.nodes) }
        ensures lists { self.new.lists ≡ self.old.lists }
        ensures edges { self.new.edges ≡ self.old.edges }
        ensures table { IsLonger self.old.table self.new.table }
        ensures applications { self.new.applications ≡ self.old.applications }
        ensures marked { self.new.marked ≡ self.old.marked }
        ensures fits { Fits self.new terms.now.nodes }
    {
        let answer = self.agenda.step(alloc, &self.classes);
        answer
    }

    /// Whether no two active nodes that are congruent are in different classes. It takes no memory.
    pub fn at_rest(&self, terms: &TermTable) -> bool
        requires { Fits self.now terms.now.nodes }
        ensures { IsTrue result ↔ IsAtRest self.now.lists terms.now.nodes }
    {
        if self.agenda.is_done() {
            return true;
        }
        match find_pair(&self.classes, terms) {
            Some(_) => false,
            None => true,
        }
    }

    /// The classes. They are those that the equations make.
    pub fn classes(&self) -> &Classes
        ensures value { result.now.lists ≡ self.now.lists }
        ensures tied { AreClassesOf self.now.lists self.now.edges }
        ensures keys { HasTrueKeys self.now }
    {
        &self.classes
    }

    /// The equations, in the order in which they came.
    pub fn edges(&self) -> &[Edge]
        ensures value { result.now ≡ self.now.edges }
        ensures bound { length result.now < 2 ^ 32 }
        ensures tied { AreClassesOf self.now.lists self.now.edges }
    {
        self.edges.as_slice()
    }

    /// The places of equations that lead from one node of a class to another, in this order, each read
    /// in either direction and none twice. Where the first `k` equations lead there, each place is below
    /// `k`.
    ///
    /// # Errors
    ///
    /// `Memory`.
    pub fn path(&self, alloc: Global, a: NodeId, b: NodeId) -> Result<List<u32>, Memory>
        requires { AreTogether self.now.lists a b }
        ensures leads { IfOk result (λ places. Leads self.now.edges places a b) }
        ensures apart { IfOk result (λ places. AreApart places) }
        ensures among { IfOk result (λ places. (k : ℕ) → Joins self.now.edges k a b → All (λ place. place < k) places) }
    {
        let places = tree_way(alloc, self.edges.as_slice(), &self.forest, a, b)?;
        Ok(places)
    }

    /// The same closure once more, with the same marks.
    pub fn copy(&self, alloc: Global) -> Result<Closure, Memory>
        ensures { IfOk result (λ closure. closure ≡ self.now) }
    {
        let classes = self.classes.copy(alloc)?;
        let mut edges = List::new(alloc);
        edges.extend(self.edges.as_slice())?;
        let forest = self.forest.copy(alloc)?;
        let agenda = self.agenda.copy(alloc)?;
        let mut marks = List::new(alloc);
        marks.extend(self.marks.as_slice())?;
        Ok(Closure {
            classes,
            edges,
            forest,
            agenda,
            marks,
        })
    }
}

impl Undo for Closure {
    type View = ClosureView;

    ghost present = { λ it. record { lists = it.lists; edges = it.edges; table = it.table; applications = it.applications } };

    ghost marked = { λ it. it.marked };

    fn mark(&mut self, alloc: Global) -> Result<Mark, Memory> {
        let last = self.marks.len();
        let noted = self.agenda.noted(self.edges.len() as u32);
        self.marks.push(noted)?;
        match self.classes.mark(alloc) {
            Ok(mark) => Ok(mark),
            Err(_) => {
                self.marks.truncate(last);
                Err(Memory)
            }
        }
    }

    fn undo(&mut self, mark: Mark) {
        let place = mark.number() as usize;
        let noted = self.marks.as_slice()[place];
        self.classes.undo(mark);
        self.edges.truncate(noted.edges as usize);
        self.forest.truncate(noted.edges);
        self.agenda.undo(noted);
        self.marks.truncate(place);
    }
}

/// What is at rest knows exactly what is derivable: two active nodes are in one class exactly where
/// their equality follows from the kept equations by congruence over the active nodes.
pub fn at_rest_is_exact()
    ensures { ExactAtRest }
{}

/// What fits a table fits each longer one.
pub fn fits_longer()
    ensures { FitsLonger }
{}
