//! Lines that tell the edges which an equality needs.
ghost use Rattle.std.specs.Prelude.{◌≡◌, ℕ, ◌<◌, ◌≤◌, All, IfOk, OnOk, Some, length, slice_get};
ghost use Rattle.std.specs.List.{AllZip};
ghost use Rattle.grind_term_graph.specs.declared.node.Node.{Node};
ghost use Rattle.grind_claims.specs.declared.claim.Claim.TheVariants.{Same};
ghost use Rattle.grind_claims.specs.declared.proof.Rule.TheVariants.{Cong};
ghost use Rattle.grind_claims.specs.Claims.{IsFormed};
ghost use Rattle.grind_classes.specs.Classes.{IsActive};
ghost use Rattle.grind_congruence.specs.Edges.{Joins};
ghost use Rattle.grind_proof_writer.specs.Lines.{Tells, IsUsable};
ghost use Rattle.grind_proof_writer.specs.Writing.{CanWrite, Writes, MayWrite};
ghost use Rattle.grind_needed_edges.specs.Needed.{AreJoinedWithin};
ghost use Rattle.grind_needed_edges.specs.Numbered.{HasNumber};
ghost use Rattle.grind_needed_edges.specs.Plans.{IsNeeded, HasWaysFor, IsPlanned};
ghost use Rattle.grind_explain.specs.Deriving.{AreLines, GoesAsPlanned, IsKnown, AreKnown, IsGiven, AreTold};

use crate::chain::Way;
use grind_congruence::Closure;
use grind_needed_edges::{Pair, Pairs, Plan, Why, is_needed};
use grind_outside::{List, Memory};
use grind_proof_kernel::{Claim, Proof, Rule};
use grind_proof_writer::Writer;
use grind_term_graph::{Args, NodeId, TermTable};
use std::alloc::Global;

// What an explanation goes by.
#[derive(Drop)]
pub(crate) struct Course<'a> {
    // Where lines are written.
    pub(crate) writer: &'a Writer<'a>,
    // The closure whose equalities are explained.
    pub(crate) closure: &'a Closure,
    // Why the facts of its edges hold.
    pub(crate) whys: &'a [Why],
    // Which edges are needed, and the ways.
    pub(crate) plan: &'a Plan,
}

impl<'a> Course<'a> {
    // A line that tells that the two nodes are equal for which all is planned.
    pub(crate) fn line_of(
        &self,
        proof: &mut Proof,
        told: &mut Pairs,
        a: NodeId,
        b: NodeId,
    ) -> Result<u32, Memory>
        requires ready { CanWrite self.now.writer.now proof.old }
        requires lines { AreLines proof.old self.now.writer.now.branch told.old }
        requires given { IsGiven self.now.closure.now self.now.whys.now self.now.plan.now self.now.writer.now.branch proof.old }
        requires count { length self.now.plan.now.needed ≤ length self.now.closure.now.edges }
        requires active { IsActive self.now.closure.now.lists a }
        requires joined { Joins self.now.closure.now.edges (length self.now.plan.now.needed) a b }
        requires planned { HasNumber self.now.plan.now.pairs a b }
        ensures writes { Writes self.now.writer.now proof.old proof.new }
        ensures ready { CanWrite self.now.writer.now proof.new }
        ensures goes { OnOk result (GoesAsPlanned self.now proof.old told.old proof.new told.new) }
        ensures tells { IfOk result (λ number. Tells proof.new self.now.writer.now.branch number (Same a b)) }
    {
        self.tell_needed(proof, told)?;
        let number = self.line_of_arg(proof, told, a, b)?;
        Ok(number)
    }

    // Derives the equalities of the needed edges, from the first one up.
    fn tell_needed(&self, proof: &mut Proof, told: &mut Pairs) -> Result<(), Memory>
        requires ready { CanWrite self.now.writer.now proof.old }
        requires lines { AreLines proof.old self.now.writer.now.branch told.old }
        requires given { IsGiven self.now.closure.now self.now.whys.now self.now.plan.now self.now.writer.now.branch proof.old }
        requires count { length self.now.plan.now.needed ≤ length self.now.closure.now.edges }
        ensures writes { Writes self.now.writer.now proof.old proof.new }
        ensures ready { CanWrite self.now.writer.now proof.new }
        ensures goes { OnOk result (GoesAsPlanned self.now proof.old told.old proof.new told.new) }
        ensures lines { OnOk result (AreLines proof.new self.now.writer.now.branch told.new) }
        ensures given { OnOk result (IsGiven self.now.closure.now self.now.whys.now self.now.plan.now self.now.writer.now.branch proof.new) }
        ensures known { OnOk result (AreKnown self.now.closure.now.edges self.now.plan.now.needed told.new (length self.now.plan.now.needed)) }
    {
        let count = self.plan.needed.len();
        for place in 0..count {
            self.tell_place(proof, told, place)?;
        }
        Ok(())
    }

    // Derives the equality of the edge at a place, if it is needed.
    fn tell_place(&self, proof: &mut Proof, told: &mut Pairs, place: usize) -> Result<(), Memory>
        requires ready { CanWrite self.now.writer.now proof.old }
        requires lines { AreLines proof.old self.now.writer.now.branch told.old }
        requires given { IsGiven self.now.closure.now self.now.whys.now self.now.plan.now self.now.writer.now.branch proof.old }
        requires before { AreKnown self.now.closure.now.edges self.now.plan.now.needed told.old place }
        requires place { place < length self.now.plan.now.needed }
        requires count { length self.now.plan.now.needed ≤ length self.now.closure.now.edges }
        ensures writes { Writes self.now.writer.now proof.old proof.new }
        ensures ready { CanWrite self.now.writer.now proof.new }
        ensures goes { OnOk result (GoesAsPlanned self.now proof.old told.old proof.new told.new) }
        ensures lines { OnOk result (AreLines proof.new self.now.writer.now.branch told.new) }
        ensures known { OnOk result (IsNeeded self.now.plan.now.needed place → IsKnown self.now.closure.now.edges told.new place) }
    {
        if !is_needed(self.plan.needed.as_slice(), place) {
            return Ok(());
        }
        let edges = self.closure.edges();
        let edge = &edges[place];
        match self.whys[edge.why as usize] {
            Why::Line(number) => {
                told.note(edge.left, edge.right, number)?;
                Ok(())
            }
            Why::Congruence => {
                self.tell_pair(proof, told, edge.left, edge.right)?;
                Ok(())
            }
        }
    }

    // Derives that two nodes are equal, whose arguments known edges join.
    fn tell_pair(
        &self,
        proof: &mut Proof,
        told: &mut Pairs,
        left: NodeId,
        right: NodeId,
    ) -> Result<(), Memory>
        requires ready { CanWrite self.now.writer.now proof.old }
        requires lines { AreLines proof.old self.now.writer.now.branch told.old }
        requires given { IsGiven self.now.closure.now self.now.whys.now self.now.plan.now self.now.writer.now.branch proof.old }
        requires left { IsActive self.now.closure.now.lists left }
        requires right { IsActive self.now.closure.now.lists right }
        requires known { (place : ℕ) × AreKnown self.now.closure.now.edges self.now.plan.now.needed told.old place
            × AreJoinedWithin proof.old.terms.nodes self.now.closure.now.edges place left right }
        requires planned { HasWaysFor proof.old.terms.nodes self.now.plan.now.pairs left right }
        requires wanted { IsPlanned self.now.closure.now.edges self.now.whys.now self.now.plan.now left right }
        ensures writes { Writes self.now.writer.now proof.old proof.new }
        ensures ready { CanWrite self.now.writer.now proof.new }
        ensures goes { OnOk result (GoesAsPlanned self.now proof.old told.old proof.new told.new) }
        ensures lines { OnOk result (AreLines proof.new self.now.writer.now.branch told.new) }
        ensures has { OnOk result (HasNumber told.new left right) }
    {
        let alloc = self.writer.alloc;
        let lefts = args_of(alloc, &proof.terms, left)?;
        let rights = args_of(alloc, &proof.terms, right)?;
        let premises = self.lines_of_args(proof, told, lefts.as_slice(), rights.as_slice())?;
        let pair = Pair { left, right };
        self.put_pair(proof, told, premises, &pair)?;
        Ok(())
    }

    // Writes that two nodes are equal by congruence, unless a line tells it.
    fn put_pair(
        &self,
        proof: &mut Proof,
        told: &mut Pairs,
        premises: List<u32>,
        pair: &Pair,
    ) -> Result<(), Memory>
        requires ready { CanWrite self.now.writer.now proof.old }
        requires lines { AreLines proof.old self.now.writer.now.branch told.old }
        requires formed { IsFormed proof.old.terms.nodes (Same pair.now.left pair.now.right) }
        requires wanted { IsPlanned self.now.closure.now.edges self.now.whys.now self.now.plan.now pair.now.left pair.now.right }
        requires usable { All (IsUsable proof.old self.now.writer.now.branch) premises }
        requires allowed { MayWrite self.now.writer.now proof.old Cong premises (Same pair.now.left pair.now.right) }
        ensures writes { Writes self.now.writer.now proof.old proof.new }
        ensures ready { CanWrite self.now.writer.now proof.new }
        ensures goes { OnOk result (GoesAsPlanned self.now proof.old told.old proof.new told.new) }
        ensures lines { OnOk result (AreLines proof.new self.now.writer.now.branch told.new) }
        ensures has { OnOk result (HasNumber told.new pair.now.left pair.now.right) }
    {
        if let Some(_) = told.find(pair.left, pair.right) {
            return Ok(());
        }
        let claim = Claim::Same(pair.left, pair.right);
        let number = self.writer.put(proof, Rule::Cong, premises, claim)?;
        told.put(pair.left, pair.right, number)?;
        Ok(())
    }

    // Lines that tell that these nodes are equal to those, one by one, along planned ways of known edges.
    fn lines_of_args(
        &self,
        proof: &mut Proof,
        told: &mut Pairs,
        lefts: &[NodeId],
        rights: &[NodeId],
    ) -> Result<List<u32>, Memory>
        requires ready { CanWrite self.now.writer.now proof.old }
        requires lines { AreLines proof.old self.now.writer.now.branch told.old }
        requires given { IsGiven self.now.closure.now self.now.whys.now self.now.plan.now self.now.writer.now.branch proof.old }
        requires active { All (IsActive self.now.closure.now.lists) lefts.now }
        requires known { (place : ℕ) × AreKnown self.now.closure.now.edges self.now.plan.now.needed told.old place
            × AllZip (Joins self.now.closure.now.edges place) lefts.now rights.now }
        requires planned { AllZip (HasNumber self.now.plan.now.pairs) lefts.now rights.now }
        ensures writes { Writes self.now.writer.now proof.old proof.new }
        ensures ready { CanWrite self.now.writer.now proof.new }
        ensures goes { OnOk result (GoesAsPlanned self.now proof.old told.old proof.new told.new) }
        ensures lines { OnOk result (AreLines proof.new self.now.writer.now.branch told.new) }
        ensures told { IfOk result (λ numbers. AreTold proof.new self.now.writer.now.branch lefts.now rights.now numbers) }
    {
        let mut numbers = List::new(self.writer.alloc);
        let mut left = lefts;
        let mut right = rights;
        while let Some((a, left_tail)) = left.split_first() {
            let Some((b, right_tail)) = right.split_first() else {
                return Ok(numbers);
            };
            let number = self.line_of_arg(proof, told, *a, *b)?;
            numbers.push(number)?;
            left = left_tail;
            right = right_tail;
        }
        Ok(numbers)
    }

    // A line that tells that two nodes are equal, along their way, whose edges are known.
    pub(crate) fn line_of_arg(
        &self,
        proof: &mut Proof,
        told: &mut Pairs,
        a: NodeId,
        b: NodeId,
    ) -> Result<u32, Memory>
        requires ready { CanWrite self.now.writer.now proof.old }
        requires lines { AreLines proof.old self.now.writer.now.branch told.old }
        requires given { IsGiven self.now.closure.now self.now.whys.now self.now.plan.now self.now.writer.now.branch proof.old }
        requires active { IsActive self.now.closure.now.lists a }
        requires known { (place : ℕ) × AreKnown self.now.closure.now.edges self.now.plan.now.needed told.old place
            × Joins self.now.closure.now.edges place a b }
        requires planned { HasNumber self.now.plan.now.pairs a b }
        ensures writes { Writes self.now.writer.now proof.old proof.new }
        ensures ready { CanWrite self.now.writer.now proof.new }
        ensures goes { OnOk result (GoesAsPlanned self.now proof.old told.old proof.new told.new) }
        ensures lines { OnOk result (AreLines proof.new self.now.writer.now.branch told.new) }
        ensures tells { IfOk result (λ number. Tells proof.new self.now.writer.now.branch number (Same a b)) }
    {
        if let Some(number) = told.find(a, b) {
            return Ok(number);
        }
        let number = self.plan.pairs.number_of(a, b);
        let places = &self.plan.ways.as_slice()[number as usize];
        let way = Way {
            writer: self.writer,
            edges: self.closure.edges(),
        };
        let line = way.chain(proof, told, places.as_slice(), a)?;
        Ok(line)
    }
}

// The arguments of a node.
fn args_of(alloc: Global, terms: &TermTable, n: NodeId) -> Result<Args, Memory>
    requires { n < length terms.now.nodes }
    ensures { IfOk result (λ args. (node : Node) → slice_get terms.now.nodes n ≡ Some node → args ≡ node.args) }
{
    let args = terms.node(n).args.copy(alloc)?;
    Ok(args)
}
