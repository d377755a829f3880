//! Making a bound of two whole numbers that differ strict.
ghost use Rattle.std.specs.Prelude.{◌≡◌, ◌⊎◌, Some, IfOk, IsTrue, ◌↔◌};
ghost use Rattle.grind_claims.specs.declared.claim.Claim.TheVariants.{Differ};
ghost use Rattle.grind_differences.specs.Differences.{difference};
ghost use Rattle.grind_cutsat_facts.specs.Facts.{Stands};
ghost use Rattle.grind_cutsat_assignment.specs.Given.{given};
ghost use Rattle.grind_cutsat_units.specs.Posts.{IsFound, AtSomeFact};
ghost use Rattle.grind_cutsat_units.specs.Strictness.{BoundGives, DifferenceGives, Strengthens};

use crate::drafting::drafted;
use crate::posts::strict_post;
use crate::sides::{Sides, one_more};
use crate::types::{Draft, View};
use grind_claims::Claim;
use grind_differences::is_difference;
use grind_linear_forms::Form;
use grind_outside::{List, Memory};
use std::alloc::Global;

/// The drafts of a bound of two whole numbers that differ, made strict by the rule `strict`, where that gives anything new.
///
/// # Errors
///
/// `Memory` if out of memory.
pub fn strengthens_a_bound(alloc: Global, view: &View) -> Result<Option<List<Draft>>, Memory>
    ensures { IfOk result (λ found. IsFound view.now.facts.now view.now.next
        (Strengthens (given view.now.facts.now view.now.terms.now.nodes view.now.classes.now.lists)) found) }
{
    let mut rest = view.facts.as_slice();
    while let Some((fact, tail)) = rest.split_first() {
        let found = difference_at(alloc, view, &fact.claim)?;
        if let Some(drafts) = found {
            return Ok(Some(drafts));
        }
        rest = tail;
    }
    Ok(None)
}

/// What the claim gives, if it says that two differ.
fn difference_at(alloc: Global, view: &View, claim: &Claim) -> Result<Option<List<Draft>>, Memory>
    requires { Stands view.now.facts.now claim.now }
    ensures { IfOk result (λ found. IsFound view.now.facts.now view.now.next
        (DifferenceGives view.now.terms.now.nodes view.now.facts.now claim.now) found) }
{
    let Claim::Differ(a, b) = claim else {
        return Ok(None);
    };
    let sides = Sides {
        left: *a,
        right: *b,
    };
    let found = bound_of(alloc, view, &sides)?;
    Ok(found)
}

/// What a bound of the two gives, which differ.
fn bound_of(alloc: Global, view: &View, sides: &Sides) -> Result<Option<List<Draft>>, Memory>
    requires { Stands view.now.facts.now (Differ sides.now.left sides.now.right) }
    ensures { IfOk result (λ found. IsFound view.now.facts.now view.now.next
        (AtSomeFact view.now.facts.now (BoundGives view.now.terms.now.nodes view.now.facts.now sides.now.left sides.now.right)) found) }
{
    let mut rest = view.facts.as_slice();
    while let Some((fact, tail)) = rest.split_first() {
        let found = bound_at(alloc, view, sides, &fact.claim)?;
        if let Some(drafts) = found {
            return Ok(Some(drafts));
        }
        rest = tail;
    }
    Ok(None)
}

/// What the claim gives, if it is a bound of the two, which differ.
fn bound_at(
    alloc: Global,
    view: &View,
    sides: &Sides,
    claim: &Claim,
) -> Result<Option<List<Draft>>, Memory>
    requires differ { Stands view.now.facts.now (Differ sides.now.left sides.now.right) }
    requires bound { Stands view.now.facts.now claim.now }
    ensures { IfOk result (λ found. IsFound view.now.facts.now view.now.next
        (BoundGives view.now.terms.now.nodes view.now.facts.now sides.now.left sides.now.right claim.now) found) }
{
    let Claim::AtMost(form) = claim else {
        return Ok(None);
    };
    let bounds = bounds_either(alloc, view, sides, form)?;
    if !bounds {
        return Ok(None);
    }
    let copy = form.copy(alloc)?;
    let Some(stricter) = one_more(copy) else {
        return Ok(None);
    };
    if view.facts.covers(&stricter) {
        return Ok(None);
    }
    let posts = strict_post(alloc, stricter, sides, claim)?;
    let drafts = drafted(alloc, view, posts.as_slice())?;
    Ok(drafts)
}

/// Whether the form is the difference of the two, in one order or the other.
fn bounds_either(alloc: Global, view: &View, sides: &Sides, form: &Form) -> Result<bool, Memory>
    ensures { IfOk result (λ yes. IsTrue yes ↔ ((difference view.now.terms.now.nodes sides.now.left sides.now.right ≡ Some form.now)
        ⊎ (difference view.now.terms.now.nodes sides.now.right sides.now.left ≡ Some form.now))) }
{
    let first = is_difference(alloc, view.terms, sides.left, sides.right, form)?;
    let second = is_difference(alloc, view.terms, sides.right, sides.left, form)?;
    Ok(first || second)
}
