//! What an equality needs, found from the last edge down.
ghost use Rattle.std.specs.Prelude.{◌≡◌, ℕ, ◌<◌, ◌≤◌, All, false, IfOk, OnOk, length, slice_index_or};
ghost use Rattle.std.specs.List.{AllZip};
ghost use Rattle.grind_classes.specs.Classes.{IsActive, AreTogether};
ghost use Rattle.grind_congruence.specs.Congruence.{Fits};
ghost use Rattle.grind_congruence.specs.Edges.{Joins};
ghost use Rattle.grind_needed_edges.specs.Needed.{IsFewest, AreJoinedWithin, IsFirstWay, AreAlignedArgs, AreGrounds};
ghost use Rattle.grind_needed_edges.specs.Numbered.{HasNumber, HasNoNumber};
ghost use Rattle.grind_needed_edges.specs.Plans.{IsNeeded, AreWays, IsPlanOf, IsNeededBy, HasWaysFor, IsCovered};
ghost use Rattle.grind_needed_edges.specs.Planning.{set_all, IsWayKept, Extends, IsBound};

use crate::pairs::Pairs;
use crate::why::Why;
use grind_congruence::{Closure, Edge};
use grind_outside::{List, Memory};
use grind_term_graph::{NodeId, TermTable};
use std::alloc::Global;

/// Which of the first edges are needed, and for pairs of nodes the places of the edges on their ways.
#[derive(Drop)]
pub struct Plan {
    /// For each of the first edges whether it is needed.
    pub needed: List<bool>,
    /// Pairs of nodes, each with the number of its way.
    pub pairs: Pairs,
    /// The places of the edges on each way, in order.
    pub ways: List<List<u32>>,
}

/// What a plan is made from.
#[derive(Drop)]
pub struct Planner<'a> {
    /// Where memory is taken.
    pub alloc: Global,
    /// The closure whose equalities are explained.
    pub closure: &'a Closure,
    /// For each number of a fact why it holds.
    pub whys: &'a [Why],
    /// The terms.
    pub terms: &'a TermTable,
    /// One of the two nodes whose equality is explained.
    pub left: NodeId,
    /// The other.
    pub right: NodeId,
}

impl<'a> Planner<'a> {
    /// What the equality of the two nodes needs, which are in one class: the edges on the first way between them and, where
    /// such an edge is a congruence, what the equality of each pair of its arguments needs.
    ///
    /// # Errors
    ///
    /// `Memory`.
    pub fn plan_of(&self) -> Result<Plan, Memory>
        requires together { AreTogether self.now.closure.now.lists self.now.left self.now.right }
        requires fits { Fits self.now.closure.now self.now.terms.now.nodes }
        requires grounds { (count : ℕ) → IsFewest self.now.closure.now.edges count self.now.left self.now.right
            → AreGrounds self.now.terms.now.nodes self.now.closure.now.edges self.now.whys.now count }
        ensures fewest { IfOk result (λ plan. IsFewest self.now.closure.now.edges (length plan.needed) self.now.left self.now.right) }
        ensures count { IfOk result (λ plan. length plan.needed ≤ length self.now.closure.now.edges) }
        ensures plan { IfOk result (λ plan. IsPlanOf self.now plan) }
        ensures has { IfOk result (λ plan. HasNumber plan.pairs self.now.left self.now.right) }
        ensures covers { IfOk result (λ plan. (place : ℕ)
            → IsCovered self.now.terms.now.nodes self.now.closure.now.edges self.now.whys.now plan place) }
    {
        let edges = self.closure.edges();
        let places = self.closure.path(self.alloc, self.left, self.right)?;
        let count = bound_of(places.as_slice());
        let needed = none_needed(self.alloc, count)?;
        let mut plan = Plan {
            needed,
            pairs: Pairs::new(self.alloc),
            ways: List::new(self.alloc),
        };
        keep(&mut plan, edges, self.left, self.right, places)?;
        self.cover_all(&mut plan, count)?;
        Ok(plan)
    }

    // Plans for each needed edge, from the last one down.
    fn cover_all(&self, plan: &mut Plan, count: usize) -> Result<(), Memory>
        requires fits { Fits self.now.closure.now self.now.terms.now.nodes }
        requires grounds { AreGrounds self.now.terms.now.nodes self.now.closure.now.edges self.now.whys.now count }
        requires count { length plan.old.needed ≡ count }
        requires within { count ≤ length self.now.closure.now.edges }
        requires ways { IsPlanOf self.now plan.old }
        ensures long { OnOk result (length plan.new.needed ≡ length plan.old.needed) }
        ensures ways { OnOk result (IsPlanOf self.now plan.new) }
        ensures pairs { OnOk result ((x y : ℕ) → HasNumber plan.old.pairs x y → HasNumber plan.new.pairs x y) }
        ensures covers { OnOk result ((place : ℕ)
            → IsCovered self.now.terms.now.nodes self.now.closure.now.edges self.now.whys.now plan.new place) }
    {
        let mut place = count;
        while place > 0 {
            place -= 1;
            self.cover(plan, place)?;
        }
        Ok(())
    }

    // Plans for the edge at a place, if it is needed.
    fn cover(&self, plan: &mut Plan, place: usize) -> Result<(), Memory>
        requires fits { Fits self.now.closure.now self.now.terms.now.nodes }
        requires grounds { AreGrounds self.now.terms.now.nodes self.now.closure.now.edges self.now.whys.now (length plan.old.needed) }
        requires place { place < length plan.old.needed }
        requires within { length plan.old.needed ≤ length self.now.closure.now.edges }
        requires ways { IsPlanOf self.now plan.old }
        ensures extends { OnOk result (Extends plan.old plan.new place) }
        ensures ways { OnOk result (IsPlanOf self.now plan.new) }
        ensures covers { OnOk result
            (IsCovered self.now.terms.now.nodes self.now.closure.now.edges self.now.whys.now plan.new place) }
    {
        if !is_needed(plan.needed.as_slice(), place) {
            return Ok(());
        }
        let edges = self.closure.edges();
        let edge = &edges[place];
        match self.whys[edge.why as usize] {
            Why::Line(_) => Ok(()),
            Why::Congruence => {
                self.cover_pair(plan, place, edge.left, edge.right)?;
                Ok(())
            }
        }
    }

    // Plans a way for each pair of arguments of two nodes.
    fn cover_pair(
        &self,
        plan: &mut Plan,
        place: usize,
        left: NodeId,
        right: NodeId,
    ) -> Result<(), Memory>
        requires fits { Fits self.now.closure.now self.now.terms.now.nodes }
        requires left { IsActive self.now.closure.now.lists left }
        requires right { IsActive self.now.closure.now.lists right }
        requires joined { AreJoinedWithin self.now.terms.now.nodes self.now.closure.now.edges place left right }
        requires needed { (x y : ℕ) → AreAlignedArgs self.now.terms.now.nodes left right x y → IsNeededBy self.now x y }
        requires place { place ≤ length plan.old.needed }
        requires ways { IsPlanOf self.now plan.old }
        ensures extends { OnOk result (Extends plan.old plan.new place) }
        ensures ways { OnOk result (IsPlanOf self.now plan.new) }
        ensures covers { OnOk result (HasWaysFor self.now.terms.now.nodes plan.new.pairs left right) }
    {
        let lefts = self.terms.node(left).args.as_slice();
        let rights = self.terms.node(right).args.as_slice();
        self.cover_args(plan, place, lefts, rights)?;
        Ok(())
    }

    // Plans a way for each of these nodes to that of the other row.
    fn cover_args(
        &self,
        plan: &mut Plan,
        place: usize,
        lefts: &[NodeId],
        rights: &[NodeId],
    ) -> Result<(), Memory>
        requires left { All (IsActive self.now.closure.now.lists) lefts.now }
        requires right { All (IsActive self.now.closure.now.lists) rights.now }
        requires joined { AllZip (Joins self.now.closure.now.edges place) lefts.now rights.now }
        requires needed { AllZip (IsNeededBy self.now) lefts.now rights.now }
        requires place { place ≤ length plan.old.needed }
        requires ways { IsPlanOf self.now plan.old }
        ensures extends { OnOk result (Extends plan.old plan.new place) }
        ensures ways { OnOk result (IsPlanOf self.now plan.new) }
        ensures covers { OnOk result (AllZip (HasNumber plan.new.pairs) lefts.now rights.now) }
    {
        let mut left = lefts;
        let mut right = rights;
        while let Some((a, left_tail)) = left.split_first() {
            let Some((b, right_tail)) = right.split_first() else {
                return Ok(());
            };
            self.cover_arg(plan, place, *a, *b)?;
            left = left_tail;
            right = right_tail;
        }
        Ok(())
    }

    // Plans a way from one node to another, along edges before a place.
    fn cover_arg(&self, plan: &mut Plan, _place: usize, a: NodeId, b: NodeId) -> Result<(), Memory>
        requires left { IsActive self.now.closure.now.lists a }
        requires right { IsActive self.now.closure.now.lists b }
        requires joined { Joins self.now.closure.now.edges _place a b }
        requires needed { IsNeededBy self.now a b }
        requires place { _place ≤ length plan.old.needed }
        requires ways { IsPlanOf self.now plan.old }
        ensures extends { OnOk result (Extends plan.old plan.new _place) }
        ensures ways { OnOk result (IsPlanOf self.now plan.new) }
        ensures has { OnOk result (HasNumber plan.new.pairs a b) }
    {
        if let Some(_) = plan.pairs.find(a, b) {
            return Ok(());
        }
        let edges = self.closure.edges();
        let places = self.closure.path(self.alloc, a, b)?;
        keep(plan, edges, a, b, places)?;
        Ok(())
    }
}

// Keeps the way of a new pair. The edges on it are needed.
fn keep(
    plan: &mut Plan,
    _edges: &[Edge],
    a: NodeId,
    b: NodeId,
    places: List<u32>,
) -> Result<(), Memory>
    requires ways { AreWays _edges.now plan.old }
    requires new { HasNoNumber plan.old.pairs a b }
    requires within { All (λ place. place < length plan.old.needed) places }
    requires first { IsFirstWay _edges.now a b places }
    ensures extends { OnOk result ((bound : ℕ) → All (λ place. place < bound) places → Extends plan.old plan.new bound) }
    ensures ways { OnOk result (AreWays _edges.now plan.new) }
    ensures has { OnOk result (HasNumber plan.new.pairs a b) }
    ensures kept { OnOk result (IsWayKept plan.old a b places plan.new) }
{
    let number = plan.ways.len() as u32;
    set_needed(&mut plan.needed, places.as_slice());
    plan.ways.push(places)?;
    plan.pairs.put(a, b, number)?;
    Ok(())
}

// The edges at these places are needed.
fn set_needed(needed: &mut List<bool>, places: &[u32])
    requires { All (λ place. place < length needed.old) places.now }
    ensures { needed.new ≡ set_all needed.old places.now }
{
    let mut rest = places;
    while let Some((place, tail)) = rest.split_first() {
        needed.set(*place as usize, true);
        rest = tail;
    }
}

/// Whether the edge at a place is needed.
pub fn is_needed(needed: &[bool], place: usize) -> bool
    ensures { result ≡ slice_index_or needed.now place false }
{
    match needed.get(place) {
        Some(it) => *it,
        None => false,
    }
}

// So many edges, none of which is needed.
fn none_needed(alloc: Global, count: usize) -> Result<List<bool>, Memory>
    ensures long { IfOk result (λ needed. length needed ≡ count) }
    ensures idle { IfOk result (λ needed. (place : ℕ) → ¬ IsNeeded needed place) }
{
    let mut needed = List::new(alloc);
    for _ in 0..count {
        needed.push(false)?;
    }
    Ok(needed)
}

// The least number above all of these.
fn bound_of(places: &[u32]) -> usize
    ensures { IsBound places.now result }
{
    let mut bound = 0;
    let mut rest = places;
    while let Some((place, tail)) = rest.split_first() {
        let above = *place as usize + 1;
        if bound < above {
            bound = above;
        }
        rest = tail;
    }
    bound
}
