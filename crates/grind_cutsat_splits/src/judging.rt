//! What the values make of claims that two whole numbers differ.
ghost use Rattle.std.specs.Prelude.{◌≡◌, ℕ, All, Some, IfOk, IfSome, IfNone, MatchOption};
ghost use Rattle.grind_term_graph.specs.Terms.{int, sort_at};
ghost use Rattle.grind_claims.specs.declared.claim.Claim.TheVariants.{Differ};
ghost use Rattle.grind_claims.specs.Claims.{IsFormed};
ghost use Rattle.grind_cutsat_facts.specs.declared.facts.Fact.{Fact as FactData};
ghost use Rattle.grind_cutsat_assignment.specs.Assignments.{chosen_value};
ghost use Rattle.grind_cutsat_assignment.specs.Judgements.{Parts, AreApart};
ghost use Rattle.grind_cutsat_splits.specs.Splits.{IsSplitOf, HasNoSplit};
ghost use Rattle.grind_cutsat_splits.specs.Judging.{AreAmiss, AreToSplit, AreJudged, IsJudged, PartsOnly, AreFit, SomeFact, EachFact};

use crate::evaluation::{Scene, value_read};
use grind_claims::Claim;
use grind_cutsat_facts::Fact;
use grind_differences::bounds::has_opposite;
use grind_differences::{difference, is_number};
use grind_linear_forms::Form;
use grind_outside::Memory;
use grind_term_graph::{NodeId, TermTable};
use std::alloc::Global;

// What the values make of a claim that two whole numbers differ.
#[derive(Drop)]
pub(crate) enum Judgement {
    // The claim says nothing of that kind.
    Silent,
    // The two do not fit: when they are evaluated, or as a split.
    Unfit,
    // The values make them equal; this form splits them.
    Split(Form),
    // They have different values.
    Apart,
}

// Two whole numbers.
#[derive(Clone, Copy)]
struct Sides {
    // The first.
    left: NodeId,
    // The second.
    right: NodeId,
}

// A post that says of two whole numbers that they differ, which do not fit.
pub(crate) fn first_unfit(
    alloc: Global,
    facts: &[Fact],
    scene: &Scene,
) -> Result<Option<u32>, Memory>
    requires { All (λ (fact : FactData). IsFormed scene.now.terms.now.nodes fact.claim) facts.now }
    ensures { IfOk result (λ found. MatchOption found
        (EachFact facts.now (PartsOnly scene.now.terms.now.nodes (AreFit scene.now.terms.now.nodes (chosen_value scene.now.values.now))))
        (λ post. SomeFact facts.now (λ claim. Parts scene.now.terms.now.nodes claim
        (AreAmiss scene.now.terms.now.nodes (chosen_value scene.now.values.now))) post)) }
{
    let mut rest = facts;
    while let Some((fact, tail)) = rest.split_first() {
        let judgement = judged(alloc, scene, &fact.claim)?;
        if let Judgement::Unfit = judgement {
            return Ok(Some(fact.post));
        }
        rest = tail;
    }
    Ok(None)
}

// A form that splits two whole numbers that are said to differ and that the values make equal.
pub(crate) fn first_split(
    alloc: Global,
    facts: &[Fact],
    scene: &Scene,
) -> Result<Option<Form>, Memory>
    requires formed { All (λ (fact : FactData). IsFormed scene.now.terms.now.nodes fact.claim) facts.now }
    requires fit { EachFact facts.now (PartsOnly scene.now.terms.now.nodes (AreFit scene.now.terms.now.nodes (chosen_value scene.now.values.now))) }
    ensures { IfOk result (λ found. MatchOption found
        (EachFact facts.now (PartsOnly scene.now.terms.now.nodes (AreApart scene.now.terms.now.nodes (chosen_value scene.now.values.now))))
        (λ form. (post : ℕ) × SomeFact facts.now (λ claim. Parts scene.now.terms.now.nodes claim
        (AreToSplit scene.now.terms.now.nodes (chosen_value scene.now.values.now) form)) post)) }
{
    let mut rest = facts;
    while let Some((fact, tail)) = rest.split_first() {
        let judgement = judged(alloc, scene, &fact.claim)?;
        if let Judgement::Split(form) = judgement {
            return Ok(Some(form));
        }
        rest = tail;
    }
    Ok(None)
}

// What the values make of the claim.
fn judged(alloc: Global, scene: &Scene, claim: &Claim) -> Result<Judgement, Memory>
    requires { IsFormed scene.now.terms.now.nodes claim.now }
    ensures { IfOk result (λ it. IsJudged scene.now.terms.now.nodes (chosen_value scene.now.values.now) claim.now it) }
{
    let Some(sides) = differing(scene.terms, claim) else {
        return Ok(Judgement::Silent);
    };
    let judgement = sides_judged(alloc, scene, sides)?;
    Ok(judgement)
}

// The two whole numbers that the claim says differ, if it says so.
fn differing(terms: &TermTable, claim: &Claim) -> Option<Sides>
    ensures found { IfSome result (λ sides. (claim.now ≡ Differ sides.left sides.right) × (sort_at terms.now.nodes sides.left ≡ Some int)) }
    ensures none { IfNone result ((a b : ℕ) → claim.now ≡ Differ a b → ¬ (sort_at terms.now.nodes a ≡ Some int)) }
{
    let Claim::Differ(left, right) = claim else {
        return None;
    };
    if !is_number(terms, *left) {
        return None;
    }
    Some(Sides {
        left: *left,
        right: *right,
    })
}

// What the values make of two whole numbers that are said to differ.
fn sides_judged(alloc: Global, scene: &Scene, sides: Sides) -> Result<Judgement, Memory>
    requires left { sort_at scene.now.terms.now.nodes sides.left ≡ Some int }
    requires right { sort_at scene.now.terms.now.nodes sides.right ≡ Some int }
    ensures { IfOk result (λ it. AreJudged scene.now.terms.now.nodes (chosen_value scene.now.values.now) sides.left sides.right it) }
{
    let left = value_read(alloc, scene, sides.left)?;
    let Some(left) = left else {
        return Ok(Judgement::Unfit);
    };
    let right = value_read(alloc, scene, sides.right)?;
    let Some(right) = right else {
        return Ok(Judgement::Unfit);
    };
    if left != right {
        return Ok(Judgement::Apart);
    }
    let split = split_of(alloc, scene.terms, sides)?;
    let Some(form) = split else {
        return Ok(Judgement::Unfit);
    };
    Ok(Judgement::Split(form))
}

// The difference of the two, if it and its opposite fit.
fn split_of(alloc: Global, terms: &TermTable, sides: Sides) -> Result<Option<Form>, Memory>
    ensures { IfOk result (λ found. MatchOption found (HasNoSplit terms.now.nodes sides.left sides.right)
        (IsSplitOf terms.now.nodes sides.left sides.right)) }
{
    let found = difference(alloc, terms, sides.left, sides.right)?;
    let Some(form) = found else {
        return Ok(None);
    };
    if !has_opposite(&form) {
        return Ok(None);
    }
    Ok(Some(form))
}
