//! The facts taken.
ghost use Rattle.std.specs.Prelude.{◌≡◌, ◌<◌, ◌^◌, ℕ, [], ◌∷◌, ◌++◌, length, IfOk, OnOk, OnErr, IfSome, IsNone, IsTrue, ◌↔◌};
ghost use Rattle.grind_cutsat_facts.specs.Facts.{fact_of, IsSaid};
ghost use Rattle.grind_cutsat_facts.specs.Covering.{IsCovered};

use crate::claims::is_same_claim;
use crate::covering::is_covered;
use grind_claims::Claim;
use grind_linear_forms::Form;
use grind_outside::{List, Memory};
use std::alloc::Global;
use std::marker::Model;

/// A claim, and the number of the post that says it.
#[derive(Drop, Debug)]
pub struct Fact {
    /// The number of the post.
    pub post: u32,
    /// What it claims.
    pub claim: Claim,
}

/// The facts taken, in order. Contracts see them as a list.
#[derive(Drop, Debug)]
pub struct Facts {
    list: List<Fact>,
}

impl Model for Facts {
    ghost use Rattle.std.specs.Prelude.{List};
    ghost use Rattle.grind_cutsat_facts.specs.declared.facts.Fact.{Fact};

    ghost Value = { List Fact };

    ghost view = { λ a. a.list };
}

impl Facts {
    /// No facts. It takes no memory.
    pub fn new(alloc: Global) -> Facts
        ensures { result ≡ [] }
    {
        Facts {
            list: List::new(alloc),
        }
    }

    /// Takes the claim of a post as the last fact.
    ///
    /// # Errors
    ///
    /// `Memory` leaves the facts as they were.
    pub fn take(&mut self, alloc: Global, post: u32, claim: &Claim) -> Result<(), Memory>
        ensures ok { OnOk result (self.new ≡ self.old ++ fact_of post claim.now ∷ []) }
        ensures err { OnErr result (self.new ≡ self.old) }
    {
        let claim = claim.copy(alloc)?;
        self.list.push(Fact { post, claim })
    }

    /// The facts, in order.
    pub fn as_slice(&self) -> &[Fact]
        ensures value { result.now ≡ self.now }
        ensures bound { length self.now < 2 ^ 32 }
    {
        self.list.as_slice()
    }

    /// The number of a post that says the claim, if one does.
    pub fn post_of(&self, claim: &Claim) -> Option<u32>
        ensures found { IfSome result (λ post. IsSaid self.now post claim.now) }
        ensures none { IsNone result → (post : ℕ) → ¬ IsSaid self.now post claim.now }
    {
        post_among(self.list.as_slice(), claim)
    }

    /// Whether a fact covers the form.
    pub fn covers(&self, form: &Form) -> bool
        ensures { IsTrue result ↔ IsCovered self.now form.now }
    {
        is_covered(self.list.as_slice(), form)
    }

    /// The same facts once more.
    ///
    /// # Errors
    ///
    /// `Memory` if out of memory.
    pub fn copy(&self, alloc: Global) -> Result<Facts, Memory>
        ensures { IfOk result (λ facts. facts ≡ self.now) }
    {
        let list = facts_copied(alloc, self.list.as_slice())?;
        Ok(Facts { list })
    }
}

/// The number of a post among these that says the claim, if one does.
fn post_among(facts: &[Fact], claim: &Claim) -> Option<u32>
    ensures found { IfSome result (λ post. IsSaid facts.now post claim.now) }
    ensures none { IsNone result → (post : ℕ) → ¬ IsSaid facts.now post claim.now }
{
    let mut rest = facts;
    while let Some((fact, tail)) = rest.split_first() {
        if is_same_claim(&fact.claim, claim) {
            return Some(fact.post);
        }
        rest = tail;
    }
    None
}

/// The facts once more.
fn facts_copied(alloc: Global, facts: &[Fact]) -> Result<List<Fact>, Memory>
    ensures { IfOk result (λ copy. copy ≡ facts.now) }
{
    let mut copy = List::new(alloc);
    let mut rest = facts;
    while let Some((fact, tail)) = rest.split_first() {
        let claim = fact.claim.copy(alloc)?;
        copy.push(Fact {
            post: fact.post,
            claim,
        })?;
        rest = tail;
    }
    Ok(copy)
}
