//! Resolving two bounds of one lead and opposite signs.
ghost use Rattle.std.specs.Prelude.{◌≡◌, [], ◌∷◌, ℕ, pos, ◌<ℤ◌, IfOk, MatchOption};
ghost use Rattle.grind_claims.specs.declared.claim.Claim.TheVariants.{AtMost};
ghost use Rattle.grind_claims.specs.declared.proof.Rule.TheVariants.{Combine};
ghost use Rattle.grind_cutsat_facts.specs.Facts.{Stands};
ghost use Rattle.grind_cutsat_assignment.specs.Given.{given};
ghost use Rattle.grind_cutsat_units.specs.Posts.{planned, IsFound, AtSomeFact};
ghost use Rattle.grind_cutsat_units.specs.Cuts.{ResolvesBounds};
ghost use Rattle.grind_cutsat_cuts.specs.Resolving.{AreOpposite, AreNotOpposite, HasCutOfTwo, NoCutOfTwo, Resolve, NoneResolve, LowerGives, UpperGives};

use crate::combining::{Cut, cut_post, new_cut, sum_of_two};
use crate::factors::{Factors, factors_of};
use grind_claims::Claim;
use grind_cutsat_facts::Facts;
use grind_cutsat_units::{Draft, Planned, View, drafted};
use grind_linear_forms::{Form, one_cut};
use grind_outside::{List, Memory};
use std::alloc::Global;

// Two forms that are at most 0.
#[derive(Drop)]
struct Bounds<'a> {
    // The one from above.
    upper: &'a Form,
    // The one from below.
    lower: &'a Form,
}

/// The coefficients of the atom that leads both of two forms.
#[derive(Clone, Copy)]
pub struct Leads {
    /// Over 0.
    pub over: i128,
    /// Below 0.
    pub under: i128,
}

// What comes of two bounds: how often each is taken, and the cut of that.
#[derive(Drop)]
struct Resolution {
    factors: Factors,
    cut: Cut,
}

/// The draft of two bounds of one lead and opposite signs that are resolved, where that gives anything new.
///
/// # Errors
///
/// `Memory` if out of memory.
pub fn resolves_two_bounds(alloc: Global, view: &View) -> Result<Option<List<Draft>>, Memory>
    ensures { IfOk result (λ found. IsFound view.now.facts.now view.now.next (λ posts. (above : ℕ) × (below : ℕ)
        × ResolvesBounds (given view.now.facts.now view.now.terms.now.nodes view.now.classes.now.lists) above below posts) found) }
{
    let found = resolved_of_some(alloc, view)?;
    Ok(found)
}

// What some bound from above gives with some bound from below.
fn resolved_of_some(alloc: Global, view: &View) -> Result<Option<List<Draft>>, Memory>
    ensures { IfOk result (λ found. IsFound view.now.facts.now view.now.next
        (AtSomeFact view.now.facts.now (UpperGives view.now.facts.now)) found) }
{
    let mut rest = view.facts.as_slice();
    while let Some((fact, tail)) = rest.split_first() {
        let found = upper_at(alloc, view, &fact.claim)?;
        if let Some(drafts) = found {
            return Ok(Some(drafts));
        }
        rest = tail;
    }
    Ok(None)
}

// What the claim gives, if it is a bound from above.
fn upper_at(alloc: Global, view: &View, claim: &Claim) -> Result<Option<List<Draft>>, Memory>
    requires { Stands view.now.facts.now claim.now }
    ensures { IfOk result (λ found. IsFound view.now.facts.now view.now.next (UpperGives view.now.facts.now claim.now) found) }
{
    let Claim::AtMost(upper) = claim else {
        return Ok(None);
    };
    let found = lower_of_some(alloc, view, upper)?;
    Ok(found)
}

// What the form, which is at most 0, gives with some bound from below.
fn lower_of_some(alloc: Global, view: &View, upper: &Form) -> Result<Option<List<Draft>>, Memory>
    requires { Stands view.now.facts.now (AtMost upper.now) }
    ensures { IfOk result (λ found. IsFound view.now.facts.now view.now.next
        (AtSomeFact view.now.facts.now (LowerGives view.now.facts.now upper.now)) found) }
{
    let mut rest = view.facts.as_slice();
    while let Some((fact, tail)) = rest.split_first() {
        let found = lower_at(alloc, view, upper, &fact.claim)?;
        if let Some(drafts) = found {
            return Ok(Some(drafts));
        }
        rest = tail;
    }
    Ok(None)
}

// What the form, which is at most 0, gives with the claim, if that is a bound from below.
fn lower_at(
    alloc: Global,
    view: &View,
    upper: &Form,
    claim: &Claim,
) -> Result<Option<List<Draft>>, Memory>
    requires upper { Stands view.now.facts.now (AtMost upper.now) }
    requires lower { Stands view.now.facts.now claim.now }
    ensures { IfOk result (λ found. IsFound view.now.facts.now view.now.next (LowerGives view.now.facts.now upper.now claim.now) found) }
{
    one_cut();
    let Claim::AtMost(lower) = claim else {
        return Ok(None);
    };
    let bounds = Bounds { upper, lower };
    let found = resolved(alloc, view.facts, &bounds)?;
    let Some(found) = found else {
        return Ok(None);
    };
    let posts = resolved_posts(alloc, upper, claim, found)?;
    let drafts = drafted(alloc, view, posts.as_slice())?;
    Ok(drafts)
}

// What comes of two bounds.
fn resolved(alloc: Global, facts: &Facts, bounds: &Bounds) -> Result<Option<Resolution>, Memory>
    ensures { IfOk result (λ found. MatchOption found (NoneResolve facts.now bounds.now.upper.now bounds.now.lower.now)
        (λ it. Resolve facts.now bounds.now.upper.now bounds.now.lower.now it.factors.first it.factors.second it.cut.divisor it.cut.form)) }
{
    let Some(leads) = leads_of(bounds.upper, bounds.lower) else {
        return Ok(None);
    };
    let Some(factors) = factors_of(leads.over, leads.under) else {
        return Ok(None);
    };
    let cut = cut_of_two(alloc, facts, bounds, factors)?;
    let Some(cut) = cut else {
        return Ok(None);
    };
    Ok(Some(Resolution { factors, cut }))
}

// The cut of two bounds that are taken so often.
fn cut_of_two(
    alloc: Global,
    facts: &Facts,
    bounds: &Bounds,
    factors: Factors,
) -> Result<Option<Cut>, Memory>
    requires first { pos 0 <ℤ factors.first }
    requires second { pos 0 <ℤ factors.second }
    ensures { IfOk result (λ found. MatchOption found
        (NoCutOfTwo facts.now bounds.now.upper.now bounds.now.lower.now factors.first factors.second)
        (λ it. HasCutOfTwo facts.now bounds.now.upper.now bounds.now.lower.now factors.first factors.second it.divisor it.form)) }
{
    let sum = sum_of_two(
        alloc,
        bounds.upper,
        factors.first,
        bounds.lower,
        factors.second,
    )?;
    let Some(sum) = sum else {
        return Ok(None);
    };
    let cut = new_cut(alloc, facts, &sum)?;
    Ok(cut)
}

/// The coefficients of the atom that leads both forms, if they have opposite signs.
pub fn leads_of(upper: &Form, lower: &Form) -> Option<Leads>
    ensures { MatchOption result (AreNotOpposite upper.now lower.now) (λ it. AreOpposite upper.now lower.now it.over it.under) }
{
    let Some((first, _)) = upper.parts().split_first() else {
        return None;
    };
    let Some((second, _)) = lower.parts().split_first() else {
        return None;
    };
    if first.node != second.node {
        return None;
    }
    opposite(first.coefficient, second.coefficient)
}

// The two, if the first is over 0 and the second below.
fn opposite(over: i128, under: i128) -> Option<Leads>
    ensures { MatchOption result (pos 0 <ℤ over → under <ℤ pos 0 → ⊥)
        (λ it. (it.over ≡ over) × (it.under ≡ under) × (pos 0 <ℤ over) × (under <ℤ pos 0)) }
{
    if over <= 0 {
        return None;
    }
    if under >= 0 {
        return None;
    }
    Some(Leads { over, under })
}

// The post of what comes of two bounds.
fn resolved_posts(
    alloc: Global,
    upper: &Form,
    lower: &Claim,
    found: Resolution,
) -> Result<List<Planned>, Memory>
    ensures { IfOk result (λ posts. posts ≡ planned (AtMost found.cut.form)
        (Combine found.cut.divisor (found.factors.first ∷ found.factors.second ∷ [])) (AtMost upper.now ∷ lower.now ∷ []) ∷ []) }
{
    let Resolution { factors, cut } = found;
    let mut premises = List::new(alloc);
    let upper = upper.copy(alloc)?;
    premises.push(Claim::AtMost(upper))?;
    let lower = lower.copy(alloc)?;
    premises.push(lower)?;
    let mut often = List::new(alloc);
    often.push(factors.first)?;
    often.push(factors.second)?;
    let posts = cut_post(alloc, cut, often, premises)?;
    Ok(posts)
}
