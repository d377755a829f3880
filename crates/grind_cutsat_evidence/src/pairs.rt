//! Two bounds whose combination does not fit.
ghost use Rattle.std.specs.Prelude.{◌≡◌, ◌⊎◌, [], ◌∷◌, ℕ, pos, ◌<ℤ◌, IfOk, IsTrue, ◌↔◌, MatchOption};
ghost use Rattle.grind_claims.specs.declared.claim.Claim.{Claim as ClaimData};
ghost use Rattle.grind_claims.specs.declared.claim.Claim.TheVariants.{AtMost};
ghost use Rattle.grind_cutsat_facts.specs.Facts.{IsSaid};
ghost use Rattle.grind_cutsat_assignment.specs.Given.{given};
ghost use Rattle.grind_cutsat_units.specs.Cuts.{FailToCombine, AreUnresolved};
ghost use Rattle.grind_cutsat_evidence.specs.Pairs.{FailBy, DoNotResolve, IsUnresolvedWith, IsUnresolvedBy};

use crate::unread::has_unfit_divisor;
use grind_claims::Claim;
use grind_cutsat_cuts::combining::sum_of_two;
use grind_cutsat_cuts::factors::{Factors, factors_of};
use grind_cutsat_cuts::units::resolves_two_bounds::{Leads, leads_of};
use grind_cutsat_units::View;
use grind_linear_forms::Form;
use grind_outside::Memory;
use std::alloc::Global;

/// Two posts; one that stands by itself is given twice.
#[derive(Clone, Copy)]
pub struct Pair {
    /// The first.
    pub first: u32,
    /// The second.
    pub second: u32,
}

/// Two bounds of one lead and opposite signs whose combination does not fit in 128 bits.
///
/// # Errors
///
/// `Memory` if out of memory.
pub fn unresolved(alloc: Global, view: &View) -> Result<Option<Pair>, Memory>
    ensures { IfOk result (λ found. MatchOption found
        ((above below : ℕ) → ¬ AreUnresolved (given view.now.facts.now view.now.terms.now.nodes view.now.classes.now.lists) above below)
        (λ pair. AreUnresolved (given view.now.facts.now view.now.terms.now.nodes view.now.classes.now.lists) pair.first pair.second)) }
{
    let mut rest = view.facts.as_slice();
    while let Some((fact, tail)) = rest.split_first() {
        let found = unresolved_by(alloc, view, &fact.claim)?;
        if let Some(second) = found {
            return Ok(Some(Pair {
                first: fact.post,
                second,
            }));
        }
        rest = tail;
    }
    Ok(None)
}

// A bound that does not resolve with the claim, if that is a bound.
fn unresolved_by(alloc: Global, view: &View, claim: &Claim) -> Result<Option<u32>, Memory>
    ensures { IfOk result (λ found. MatchOption found
        ((below : ℕ) → ¬ IsUnresolvedBy view.now.facts.now below claim.now)
        (λ below. IsUnresolvedBy view.now.facts.now below claim.now)) }
{
    let Claim::AtMost(upper) = claim else {
        return Ok(None);
    };
    let found = unresolved_with(alloc, view, upper)?;
    Ok(found)
}

// A bound that does not resolve with the form.
fn unresolved_with(alloc: Global, view: &View, upper: &Form) -> Result<Option<u32>, Memory>
    ensures { IfOk result (λ found. MatchOption found
        ((post : ℕ) (other : ClaimData) → IsSaid view.now.facts.now post other → ¬ IsUnresolvedWith upper.now other)
        (λ post. (other : ClaimData) × IsSaid view.now.facts.now post other × IsUnresolvedWith upper.now other)) }
{
    let mut rest = view.facts.as_slice();
    while let Some((fact, tail)) = rest.split_first() {
        let unresolved = is_unresolved(alloc, upper, &fact.claim)?;
        if unresolved {
            return Ok(Some(fact.post));
        }
        rest = tail;
    }
    Ok(None)
}

// Whether the claim is a bound that does not resolve with the form.
fn is_unresolved(alloc: Global, upper: &Form, claim: &Claim) -> Result<bool, Memory>
    ensures { IfOk result (λ yes. IsTrue yes ↔ IsUnresolvedWith upper.now claim.now) }
{
    let Claim::AtMost(lower) = claim else {
        return Ok(false);
    };
    let unresolved = do_not_resolve(alloc, upper, lower)?;
    Ok(unresolved)
}

// Whether the two are led by one atom with opposite signs, and their combination does not fit.
fn do_not_resolve(alloc: Global, upper: &Form, lower: &Form) -> Result<bool, Memory>
    ensures { IfOk result (λ yes. IsTrue yes ↔ DoNotResolve upper.now lower.now) }
{
    let Some(leads) = leads_of(upper, lower) else {
        return Ok(false);
    };
    let unresolved = fail_by(alloc, upper, lower, leads)?;
    Ok(unresolved)
}

// Whether the least factors of the two coefficients, or what the two come to, do not fit.
fn fail_by(alloc: Global, upper: &Form, lower: &Form, leads: Leads) -> Result<bool, Memory>
    requires over { pos 0 <ℤ leads.over }
    requires under { leads.under <ℤ pos 0 }
    ensures { IfOk result (λ yes. IsTrue yes ↔ FailBy upper.now lower.now leads.over leads.under) }
{
    let Some(factors) = factors_of(leads.over, leads.under) else {
        return Ok(true);
    };
    let fail = fail_to_combine(alloc, upper, lower, factors)?;
    Ok(fail)
}

// Whether the two, taken so often, do not add up, or the greatest common divisor of that does not fit.
fn fail_to_combine(
    alloc: Global,
    upper: &Form,
    lower: &Form,
    factors: Factors,
) -> Result<bool, Memory>
    requires first { pos 0 <ℤ factors.first }
    requires second { pos 0 <ℤ factors.second }
    ensures { IfOk result (λ yes. IsTrue yes
        ↔ FailToCombine (factors.first ∷ factors.second ∷ []) (AtMost upper.now ∷ AtMost lower.now ∷ [])) }
{
    let found = sum_of_two(alloc, upper, factors.first, lower, factors.second)?;
    let Some(sum) = found else {
        return Ok(true);
    };
    Ok(has_unfit_divisor(sum.parts()))
}
