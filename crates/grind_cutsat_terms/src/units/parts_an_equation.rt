//! An equation of whole numbers whose sides a fact or the readings alone keep apart.
ghost use Rattle.std.specs.Prelude.{◌≡◌, [], ◌∷◌, ℕ, IfOk, IfSome, IfNone, IsTrue, ◌↔◌};
ghost use Rattle.grind_claims.specs.declared.claim.Claim.TheVariants.{Differ};
ghost use Rattle.grind_arithmetic_rules.specs.LinearRules.{IsApart};
ghost use Rattle.grind_term_rules.specs.TermRules.{IsEquation};
ghost use Rattle.grind_cutsat_facts.specs.Facts.{Stands};
ghost use Rattle.grind_cutsat_units.specs.Posts.{IsFound, AtSomeFact};
ghost use Rattle.grind_cutsat_terms.specs.Settling.{ApartGives, ApartAlone, SidesGive, IsIntEquation, NodeParts};

use crate::posts::{bound_alone, post_from};
use grind_arithmetic_rules::is_apart;
use grind_claims::{Claim, Rule};
use grind_cutsat_units::sides::{Sides, two_sides};
use grind_cutsat_units::{Draft, View, drafted};
use grind_differences::is_number;
use grind_outside::{List, Memory};
use grind_term_graph::{Head, NodeId, TermTable};
use std::alloc::Global;

// The draft that the sides of the node differ, if it is an equation of whole numbers that are kept apart.
pub(crate) fn parts_an_equation(
    alloc: Global,
    view: &View,
    node: NodeId,
) -> Result<Option<List<Draft>>, Memory>
    ensures { IfOk result (λ found. IsFound view.now.facts.now view.now.next
        (NodeParts view.now.terms.now.nodes view.now.facts.now node) found) }
{
    let Some(sides) = int_sides(view.terms, node) else {
        return Ok(None);
    };
    let found = sides_parted(alloc, view, &sides)?;
    Ok(found)
}

// The sides of an equation of whole numbers.
fn int_sides(terms: &TermTable, node: NodeId) -> Option<Sides>
    ensures some { IfSome result (λ sides. IsIntEquation terms.now.nodes node sides.left sides.right) }
    ensures none { IfNone result ((a b : ℕ) → ¬ IsIntEquation terms.now.nodes node a b) }
{
    let Some(sides) = equation_sides(terms, node) else {
        return None;
    };
    if !is_number(terms, sides.left) {
        return None;
    }
    Some(sides)
}

// The sides of an equation.
fn equation_sides(terms: &TermTable, node: NodeId) -> Option<Sides>
    ensures some { IfSome result (λ sides. IsEquation terms.now.nodes node sides.left sides.right) }
    ensures none { IfNone result ((a b : ℕ) → ¬ IsEquation terms.now.nodes node a b) }
{
    if node.number() >= terms.len() {
        return None;
    }
    let it = terms.node(node);
    if it.head != Head::Eq {
        return None;
    }
    two_sides(it.args.as_slice())
}

// The draft that the two differ, if a fact or the readings keep them apart.
fn sides_parted(alloc: Global, view: &View, sides: &Sides) -> Result<Option<List<Draft>>, Memory>
    ensures { IfOk result (λ found. IsFound view.now.facts.now view.now.next
        (SidesGive view.now.terms.now.nodes view.now.facts.now sides.now.left sides.now.right) found) }
{
    let parted = parted_by_some(alloc, view, sides)?;
    if let Some(drafts) = parted {
        return Ok(Some(drafts));
    }
    let read = parted_alone(alloc, view, sides)?;
    Ok(read)
}

// The draft that the two differ, if a fact keeps them apart.
fn parted_by_some(alloc: Global, view: &View, sides: &Sides) -> Result<Option<List<Draft>>, Memory>
    ensures { IfOk result (λ found. IsFound view.now.facts.now view.now.next
        (AtSomeFact view.now.facts.now (ApartGives view.now.terms.now.nodes sides.now.left sides.now.right)) found) }
{
    let mut rest = view.facts.as_slice();
    while let Some((fact, tail)) = rest.split_first() {
        let found = parted_by(alloc, view, sides, &fact.claim)?;
        if let Some(drafts) = found {
            return Ok(Some(drafts));
        }
        rest = tail;
    }
    Ok(None)
}

// The draft that the two differ, if the claim keeps them apart.
fn parted_by(
    alloc: Global,
    view: &View,
    sides: &Sides,
    claim: &Claim,
) -> Result<Option<List<Draft>>, Memory>
    requires { Stands view.now.facts.now claim.now }
    ensures { IfOk result (λ found. IsFound view.now.facts.now view.now.next
        (ApartGives view.now.terms.now.nodes sides.now.left sides.now.right claim.now) found) }
{
    let Claim::AtMost(form) = claim else {
        return Ok(None);
    };
    let differ = Claim::Differ(sides.left, sides.right);
    let apart = are_kept_apart(alloc, view.terms, claim, &differ)?;
    if !apart {
        return Ok(None);
    }
    let premises = bound_alone(alloc, form)?;
    let posts = post_from(alloc, differ, Rule::Apart, premises)?;
    let drafts = drafted(alloc, view, posts.as_slice())?;
    Ok(drafts)
}

// Whether the rule `apart` allows the difference from the claim.
fn are_kept_apart(
    alloc: Global,
    terms: &TermTable,
    claim: &Claim,
    differ: &Claim,
) -> Result<bool, Memory>
    ensures { IfOk result (λ yes. IsTrue yes ↔ IsApart terms.now.nodes (claim.now ∷ []) differ.now) }
{
    let apart = is_apart(alloc, terms, &[claim], differ)?;
    Ok(apart)
}

// The draft that the two differ, if their readings alone keep them apart.
fn parted_alone(alloc: Global, view: &View, sides: &Sides) -> Result<Option<List<Draft>>, Memory>
    ensures { IfOk result (λ found. IsFound view.now.facts.now view.now.next
        (ApartAlone view.now.terms.now.nodes sides.now.left sides.now.right) found) }
{
    let differ = Claim::Differ(sides.left, sides.right);
    let apart = are_apart(alloc, view.terms, &differ)?;
    if !apart {
        return Ok(None);
    }
    let posts = post_from(alloc, differ, Rule::Apart, List::new(alloc))?;
    let drafts = drafted(alloc, view, posts.as_slice())?;
    Ok(drafts)
}

// Whether the rule `apart` allows the difference from nothing.
fn are_apart(alloc: Global, terms: &TermTable, differ: &Claim) -> Result<bool, Memory>
    ensures { IfOk result (λ yes. IsTrue yes ↔ IsApart terms.now.nodes [] differ.now) }
{
    let apart = is_apart(alloc, terms, &[], differ)?;
    Ok(apart)
}
