//! Reading an equation of degree at most 1.
ghost use Rattle.std.specs.Prelude.{◌≡◌, ◌⊎◌, [], ◌∷◌, ℕ, ℤ, pos, negsuc, IfOk};
ghost use Rattle.grind_claims.specs.declared.claim.Claim.TheVariants.{Zero};
ghost use Rattle.grind_linear_forms.specs.Forms.{number_form};
ghost use Rattle.grind_arithmetic_rules.specs.LinearRules.{combined};
ghost use Rattle.grind_cutsat_facts.specs.Facts.{Stands};
ghost use Rattle.grind_cutsat_assignment.specs.Given.{given};
ghost use Rattle.grind_cutsat_units.specs.Posts.{IsFound};
ghost use Rattle.grind_cutsat_units.specs.Equations.{SignedGives, EquationGives, ReadsEquation};

use crate::drafting::drafted;
use crate::posts::combine_post;
use crate::types::{Draft, View};
use grind_claims::Claim;
use grind_differences::form_of;
use grind_linear_forms::{Form, FormRefusal, add_scaled};
use grind_outside::{List, Memory};
use grind_polynomials::Poly;
use std::alloc::Global;

/// The drafts of an equation of degree at most 1 that gives anything new, by the rule `combine`: as it is, or negated.
///
/// # Errors
///
/// `Memory` if out of memory.
pub fn reads_an_equation(alloc: Global, view: &View) -> Result<Option<List<Draft>>, Memory>
    ensures { IfOk result (λ found. IsFound view.now.facts.now view.now.next (λ posts. (post : ℕ)
        × ReadsEquation (given view.now.facts.now view.now.terms.now.nodes view.now.classes.now.lists) post posts) found) }
{
    let mut rest = view.facts.as_slice();
    while let Some((fact, tail)) = rest.split_first() {
        let found = equation_at(alloc, view, &fact.claim)?;
        if let Some(drafts) = found {
            return Ok(Some(drafts));
        }
        rest = tail;
    }
    Ok(None)
}

/// What the claim gives, if it is an equation.
fn equation_at(alloc: Global, view: &View, claim: &Claim) -> Result<Option<List<Draft>>, Memory>
    requires { Stands view.now.facts.now claim.now }
    ensures { IfOk result (λ found. IsFound view.now.facts.now view.now.next (EquationGives claim.now) found) }
{
    let plain = plain_at(alloc, view, claim)?;
    if let Some(drafts) = plain {
        return Ok(Some(drafts));
    }
    let negated = negated_at(alloc, view, claim)?;
    Ok(negated)
}

/// What the claim gives as it is.
fn plain_at(alloc: Global, view: &View, claim: &Claim) -> Result<Option<List<Draft>>, Memory>
    requires { Stands view.now.facts.now claim.now }
    ensures { IfOk result (λ found. IsFound view.now.facts.now view.now.next (SignedGives claim.now (pos 1)) found) }
{
    let found = signed_at(alloc, view, claim, 1)?;
    Ok(found)
}

/// What it gives negated.
fn negated_at(alloc: Global, view: &View, claim: &Claim) -> Result<Option<List<Draft>>, Memory>
    requires { Stands view.now.facts.now claim.now }
    ensures { IfOk result (λ found. IsFound view.now.facts.now view.now.next (SignedGives claim.now (negsuc 0)) found) }
{
    let found = signed_at(alloc, view, claim, -1)?;
    Ok(found)
}

/// What the claim gives with this factor, if it is an equation.
fn signed_at(
    alloc: Global,
    view: &View,
    claim: &Claim,
    factor: i128,
) -> Result<Option<List<Draft>>, Memory>
    requires { Stands view.now.facts.now claim.now }
    ensures { IfOk result (λ found. IsFound view.now.facts.now view.now.next (SignedGives claim.now factor) found) }
{
    let Claim::Zero(poly) = claim else {
        return Ok(None);
    };
    let form = signed_form(alloc, poly, factor)?;
    let Some(form) = form else {
        return Ok(None);
    };
    let posts = combine_post(alloc, form, factor, claim)?;
    let drafts = drafted(alloc, view, posts.as_slice())?;
    Ok(drafts)
}

/// The equation taken so often, as a form, where its degree is at most 1 and that fits.
fn signed_form(alloc: Global, poly: &Poly, factor: i128) -> Result<Option<Form>, Memory>
    ensures { IfOk result (λ found. found ≡ combined (number_form (pos 0)) (factor ∷ []) (Zero poly.now ∷ [])) }
{
    let linear = form_of(alloc, poly)?;
    let Some(form) = linear else {
        return Ok(None);
    };
    match add_scaled(alloc, &Form::number(alloc, 0), 1, &form, factor) {
        Ok(sum) => Ok(Some(sum)),
        Err(FormRefusal::Overflow) => Ok(None),
        Err(FormRefusal::Memory) => Err(Memory),
    }
}
