//! Lines and pairs of branches, written after a proof.
ghost use Rattle.std.specs.Prelude.{◌≡◌, ℕ, ◌+◌, ◌<◌, ◌∷◌, [], All, IfOk, OnOk, OnErr, length};
ghost use Rattle.grind_claims.specs.declared.claim.Claim.TheVariants.{Same, Absurd};
ghost use Rattle.grind_claims.specs.declared.proof.Rule.TheVariants.{Refl, Sym, Trans, Clash};
ghost use Rattle.grind_claims.specs.Claims.{IsFormed};
ghost use Rattle.grind_proof_kernel.specs.Literals.{IsLiteral};
ghost use Rattle.grind_proof_kernel.specs.Typing.{appended};
ghost use Rattle.grind_proof_writer.specs.Lines.{IsUsable, EndsWith, line_of};
ghost use Rattle.grind_proof_writer.specs.Branches.{IsLeaf, IsSplitBy, with_branches};
ghost use Rattle.grind_proof_writer.specs.Writing.{IsBegun, CanWrite, IsGoodFor, Writes, MayWrite, IsTold};

use crate::equality::Equality;
use crate::laws::pair_keeps_good;
use grind_outside::{List, Memory};
use grind_proof_kernel::laws::{typed_lines_stay, typed_next_line};
use grind_proof_kernel::literals::opposite;
use grind_proof_kernel::{Branch, Claim, Line, Proof, Rule, derive};
use grind_schemes::{Goal, Lemmas};
use grind_term_graph::NodeId;
use std::alloc::Global;

/// Where lines are written: for which goal, with which theorems, and in which branch. The proof itself is handed to each
/// call.
#[derive(Drop)]
pub struct Writer<'a> {
    /// Where memory is taken.
    pub alloc: Global,
    /// The theorems that lines may cite.
    pub lemmas: &'a Lemmas,
    /// The goal of the proof.
    pub goal: &'a Goal,
    /// The branch. The root is 0.
    pub branch: u32,
}

impl<'a> Writer<'a> {
    /// A proof with no lines and no branches but the root, over the terms of the goal.
    ///
    /// # Errors
    /// `Memory`.
    pub fn begin(&self) -> Result<Proof, Memory>
        ensures begun { IfOk result (λ proof. IsBegun self.now.goal.now proof) }
        ensures good { IfOk result (λ proof. IsGoodFor self.now proof) }
    {
        let goal = self.goal;
        let terms = goal.terms.copy(self.alloc, u32::MAX)?;
        Ok(Proof {
            terms,
            branches: List::new(self.alloc),
            lines: List::new(self.alloc),
        })
    }

    /// Writes the line of a rule, and answers its number.
    ///
    /// # Errors
    /// `Memory`. The proof is then unchanged.
    pub fn put(
        &self,
        proof: &mut Proof,
        rule: Rule,
        premises: List<u32>,
        claim: Claim,
    ) -> Result<u32, Memory>
        requires ready { CanWrite self.now proof.old }
        requires formed { IsFormed proof.old.terms.nodes claim }
        requires usable { All (IsUsable proof.old self.now.branch) premises }
        requires allowed { MayWrite self.now proof.old rule premises claim }
        ensures line { OnOk result (proof.new ≡ appended proof.old (line_of self.now.branch rule premises claim)) }
        ensures unchanged { OnErr result (proof.new ≡ proof.old) }
        ensures writes { Writes self.now proof.old proof.new }
        ensures ready { CanWrite self.now proof.new }
        ensures next { IfOk result (λ number. number ≡ length proof.old.lines) }
        ensures ends { IfOk result (λ number. EndsWith proof.new self.now.branch number claim) }
    {
        typed_lines_stay();
        typed_next_line();
        let line = Line {
            branch: self.branch,
            rule,
            premises,
            claim,
        };
        let number = derive(self.alloc, self.lemmas, self.goal, proof, line)?;
        Ok(number)
    }

    /// Writes a line without premises.
    ///
    /// # Errors
    /// `Memory`. The proof is then unchanged.
    pub fn put_alone(&self, proof: &mut Proof, rule: Rule, claim: Claim) -> Result<u32, Memory>
        requires ready { CanWrite self.now proof.old }
        requires formed { IsFormed proof.old.terms.nodes claim }
        requires allowed { MayWrite self.now proof.old rule [] claim }
        ensures line { OnOk result (proof.new ≡ appended proof.old (line_of self.now.branch rule [] claim)) }
        ensures unchanged { OnErr result (proof.new ≡ proof.old) }
        ensures writes { Writes self.now proof.old proof.new }
        ensures ready { CanWrite self.now proof.new }
        ensures next { IfOk result (λ number. number ≡ length proof.old.lines) }
        ensures ends { IfOk result (λ number. EndsWith proof.new self.now.branch number claim) }
    {
        let number = self.put(proof, rule, List::new(self.alloc), claim)?;
        Ok(number)
    }

    /// Writes a line of one premise.
    ///
    /// # Errors
    /// `Memory`. The proof is then unchanged.
    pub fn put_from(
        &self,
        proof: &mut Proof,
        rule: Rule,
        premise: u32,
        claim: Claim,
    ) -> Result<u32, Memory>
        requires ready { CanWrite self.now proof.old }
        requires formed { IsFormed proof.old.terms.nodes claim }
        requires usable { IsUsable proof.old self.now.branch premise }
        requires allowed { MayWrite self.now proof.old rule (premise ∷ []) claim }
        ensures line { OnOk result (proof.new ≡ appended proof.old (line_of self.now.branch rule (premise ∷ []) claim)) }
        ensures unchanged { OnErr result (proof.new ≡ proof.old) }
        ensures writes { Writes self.now proof.old proof.new }
        ensures ready { CanWrite self.now proof.new }
        ensures next { IfOk result (λ number. number ≡ length proof.old.lines) }
        ensures ends { IfOk result (λ number. EndsWith proof.new self.now.branch number claim) }
    {
        let mut premises = List::new(self.alloc);
        premises.push(premise)?;
        let number = self.put(proof, rule, premises, claim)?;
        Ok(number)
    }

    /// Closes the branch by two lines that contradict each other.
    ///
    /// # Errors
    /// `Memory`. The proof is then unchanged.
    pub fn close(&self, proof: &mut Proof, one: u32, other: u32) -> Result<u32, Memory>
        requires ready { CanWrite self.now proof.old }
        requires one { IsUsable proof.old self.now.branch one }
        requires other { IsUsable proof.old self.now.branch other }
        requires clash { MayWrite self.now proof.old Clash (one ∷ other ∷ []) Absurd }
        ensures line { OnOk result (proof.new ≡ appended proof.old (line_of self.now.branch Clash (one ∷ other ∷ []) Absurd)) }
        ensures unchanged { OnErr result (proof.new ≡ proof.old) }
        ensures writes { Writes self.now proof.old proof.new }
        ensures ready { CanWrite self.now proof.new }
        ensures next { IfOk result (λ number. number ≡ length proof.old.lines) }
        ensures ends { IfOk result (λ number. EndsWith proof.new self.now.branch number Absurd) }
    {
        let premises = two(self.alloc, one, other)?;
        let number = self.put(proof, Rule::Clash, premises, Claim::Absurd)?;
        Ok(number)
    }

    /// Writes that a node is equal to itself.
    ///
    /// # Errors
    /// `Memory`. The proof is then unchanged.
    pub fn reflexive(&self, proof: &mut Proof, a: NodeId) -> Result<u32, Memory>
        requires ready { CanWrite self.now proof.old }
        requires within { a < length proof.old.terms.nodes }
        ensures line { OnOk result (proof.new ≡ appended proof.old (line_of self.now.branch Refl [] (Same a a))) }
        ensures unchanged { OnErr result (proof.new ≡ proof.old) }
        ensures writes { Writes self.now proof.old proof.new }
        ensures ready { CanWrite self.now proof.new }
        ensures next { IfOk result (λ number. number ≡ length proof.old.lines) }
        ensures ends { IfOk result (λ number. EndsWith proof.new self.now.branch number (Same a a)) }
    {
        let number = self.put_alone(proof, Rule::Refl, Claim::Same(a, a))?;
        Ok(number)
    }

    /// Writes symmetry: from a = b follows b = a.
    ///
    /// # Errors
    /// `Memory`. The proof is then unchanged.
    pub fn symmetric(&self, proof: &mut Proof, told: &Equality) -> Result<u32, Memory>
        requires ready { CanWrite self.now proof.old }
        requires told { IsTold self.now proof.old told.now }
        ensures line { OnOk result (proof.new ≡ appended proof.old (line_of self.now.branch Sym (told.now.line ∷ []) (Same told.now.right told.now.left))) }
        ensures unchanged { OnErr result (proof.new ≡ proof.old) }
        ensures writes { Writes self.now proof.old proof.new }
        ensures ready { CanWrite self.now proof.new }
        ensures next { IfOk result (λ number. number ≡ length proof.old.lines) }
        ensures ends { IfOk result (λ number.
            EndsWith proof.new self.now.branch number (Same told.now.right told.now.left)) }
    {
        let claim = Claim::Same(told.right, told.left);
        let number = self.put_from(proof, Rule::Sym, told.line, claim)?;
        Ok(number)
    }

    /// Writes two equalities, of which the first ends with what the second begins with, as one.
    ///
    /// # Errors
    /// `Memory`. The proof is then unchanged.
    pub fn transitive(
        &self,
        proof: &mut Proof,
        first: &Equality,
        second: &Equality,
    ) -> Result<u32, Memory>
        requires ready { CanWrite self.now proof.old }
        requires first { IsTold self.now proof.old first.now }
        requires second { IsTold self.now proof.old second.now }
        requires meets { first.now.right ≡ second.now.left }
        ensures line { OnOk result (proof.new ≡ appended proof.old (line_of self.now.branch Trans (first.now.line ∷ second.now.line ∷ []) (Same first.now.left second.now.right))) }
        ensures unchanged { OnErr result (proof.new ≡ proof.old) }
        ensures writes { Writes self.now proof.old proof.new }
        ensures ready { CanWrite self.now proof.new }
        ensures next { IfOk result (λ number. number ≡ length proof.old.lines) }
        ensures ends { IfOk result (λ number.
            EndsWith proof.new self.now.branch number (Same first.now.left second.now.right)) }
    {
        let premises = two(self.alloc, first.line, second.line)?;
        let claim = Claim::Same(first.left, second.right);
        let number = self.put(proof, Rule::Trans, premises, claim)?;
        Ok(number)
    }

    /// Puts a pair below the branch, which must be a leaf: one branch assumes the literal, the next its opposite. It answers
    /// the number of the first. Lines may be written in both from then on, and no more in their parent.
    ///
    /// # Errors
    /// `Memory`. The proof is then unchanged.
    pub fn split(&self, proof: &mut Proof, literal: Claim) -> Result<u32, Memory>
        requires good { IsGoodFor self.now proof.old }
        requires leaf { IsLeaf proof.old.branches self.now.branch }
        requires literal { IsLiteral literal }
        requires formed { IsFormed proof.old.terms.nodes literal }
        ensures number { IfOk result (λ number. number ≡ length proof.old.branches + 1) }
        ensures good { IsGoodFor self.now proof.new }
        ensures pair { OnOk result (IsSplitBy proof.old proof.new self.now.branch literal) }
        ensures unchanged { OnErr result (proof.new ≡ proof.old) }
    {
        pair_keeps_good();
        let other = opposite(self.alloc, &literal)?;
        let after = proof.lines.len() as u32;
        let first = Branch {
            parent: self.branch,
            after,
            literal,
        };
        let second = Branch {
            parent: self.branch,
            after,
            literal: other,
        };
        put_pair(proof, first, second)?;
        let number = proof.branches.len() as u32 - 1;
        Ok(number)
    }
}

// Appends two branches to the others, or none.
fn put_pair(proof: &mut Proof, first: Branch, second: Branch) -> Result<(), Memory>
    ensures ok { OnOk result (proof.new ≡ with_branches proof.old first second) }
    ensures err { OnErr result (proof.new ≡ proof.old) }
{
    proof.branches.push(first)?;
    if let Err(refusal) = proof.branches.push(second) {
        proof.branches.pop();
        return Err(refusal);
    }
    Ok(())
}

// The list of two numbers.
fn two(alloc: Global, first: u32, second: u32) -> Result<List<u32>, Memory>
    ensures { IfOk result (λ numbers. numbers ≡ first ∷ second ∷ []) }
{
    let mut numbers = List::new(alloc);
    numbers.push(first)?;
    numbers.push(second)?;
    Ok(numbers)
}
