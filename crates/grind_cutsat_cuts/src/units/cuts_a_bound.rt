//! Cutting a bound by the greatest common divisor of its coefficients.
ghost use Rattle.std.specs.Prelude.{◌≡◌, [], ◌∷◌, ℕ, pos, IfOk, MatchOption};
ghost use Rattle.grind_claims.specs.declared.claim.Claim.TheVariants.{AtMost};
ghost use Rattle.grind_claims.specs.declared.proof.Rule.TheVariants.{Combine};
ghost use Rattle.grind_cutsat_facts.specs.Facts.{Stands};
ghost use Rattle.grind_cutsat_assignment.specs.Given.{given};
ghost use Rattle.grind_cutsat_units.specs.Posts.{planned, IsFound, AtSomeFact};
ghost use Rattle.grind_cutsat_units.specs.Cuts.{CutsBound};
ghost use Rattle.grind_cutsat_cuts.specs.Cutting.{HasCut, NoCut, CutGives};

use crate::combining::{Cut, cut_post, new_cut, sum_of_one};
use grind_claims::Claim;
use grind_cutsat_facts::Facts;
use grind_cutsat_units::{Draft, Planned, View, drafted};
use grind_linear_forms::{Form, one_cut};
use grind_outside::{List, Memory};
use std::alloc::Global;

/// The draft of a bound that is cut by the greatest common divisor of its coefficients, where that gives anything new.
///
/// # Errors
///
/// `Memory` if out of memory.
pub fn cuts_a_bound(alloc: Global, view: &View) -> Result<Option<List<Draft>>, Memory>
    ensures { IfOk result (λ found. IsFound view.now.facts.now view.now.next (λ posts. (post : ℕ)
        × CutsBound (given view.now.facts.now view.now.terms.now.nodes view.now.classes.now.lists) post posts) found) }
{
    let found = cut_of_some(alloc, view)?;
    Ok(found)
}

// What some bound gives that is cut.
fn cut_of_some(alloc: Global, view: &View) -> Result<Option<List<Draft>>, Memory>
    ensures { IfOk result (λ found. IsFound view.now.facts.now view.now.next
        (AtSomeFact view.now.facts.now (CutGives view.now.facts.now)) found) }
{
    let mut rest = view.facts.as_slice();
    while let Some((fact, tail)) = rest.split_first() {
        let found = cut_at(alloc, view, &fact.claim)?;
        if let Some(drafts) = found {
            return Ok(Some(drafts));
        }
        rest = tail;
    }
    Ok(None)
}

// What the claim gives, if it is a bound.
fn cut_at(alloc: Global, view: &View, claim: &Claim) -> Result<Option<List<Draft>>, Memory>
    requires { Stands view.now.facts.now claim.now }
    ensures { IfOk result (λ found. IsFound view.now.facts.now view.now.next (CutGives view.now.facts.now claim.now) found) }
{
    one_cut();
    let Claim::AtMost(form) = claim else {
        return Ok(None);
    };
    let cut = cut_of(alloc, view.facts, form)?;
    let Some(cut) = cut else {
        return Ok(None);
    };
    let posts = cut_posts(alloc, claim, cut)?;
    let drafts = drafted(alloc, view, posts.as_slice())?;
    Ok(drafts)
}

// The cut of a form that is at most 0.
fn cut_of(alloc: Global, facts: &Facts, form: &Form) -> Result<Option<Cut>, Memory>
    ensures { IfOk result (λ found. MatchOption found (NoCut facts.now form.now) (λ it. HasCut facts.now form.now it.divisor it.form)) }
{
    let sum = sum_of_one(alloc, form)?;
    let Some(sum) = sum else {
        return Ok(None);
    };
    let cut = new_cut(alloc, facts, &sum)?;
    let Some(cut) = cut else {
        return Ok(None);
    };
    if cut.divisor <= 1 {
        return Ok(None);
    }
    Ok(Some(cut))
}

// The post of the cut of a bound.
fn cut_posts(alloc: Global, bound: &Claim, cut: Cut) -> Result<List<Planned>, Memory>
    ensures { IfOk result (λ posts. posts ≡ planned (AtMost cut.form) (Combine cut.divisor (pos 1 ∷ [])) (bound.now ∷ []) ∷ []) }
{
    let mut factors = List::new(alloc);
    factors.push(1)?;
    let mut premises = List::new(alloc);
    let bound = bound.copy(alloc)?;
    premises.push(bound)?;
    let posts = cut_post(alloc, cut, factors, premises)?;
    Ok(posts)
}
