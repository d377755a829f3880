//! The patterns that an annotation gives a theorem.
ghost use Rattle.std.specs.Prelude.{All, IfOk, IfSome};
ghost use Rattle.grind_schemes.specs.Schemes.{IsScheme, IsHeadedByFunction};
ghost use Rattle.grind_schemes.specs.Theorems.{HoldsEach};
ghost use Rattle.grind_patterns.specs.Patterns.{PatternsOrNone, IsFormedKind};
ghost use Rattle.grind_patterns.specs.Walking.{ChosenOrNone};

use crate::body::{conclusion, equation, implication, walk_hypotheses};
use crate::copies::{copied_alone, copied_list};
use crate::kind::Kind;
use crate::terms::{are_pattern_terms, hold_each};
use crate::walk::walk;
use grind_outside::{List, Memory};
use grind_schemes::Scheme;
use grind_term_graph::SortId;
use std::alloc::Global;

/// The patterns of a theorem with these variables and this body, as its annotation gives them: copies of the terms
/// that the annotation chooses. None comes exactly where the formula has no such part, where one of the terms is no
/// pattern term, or where a variable stands in none of them.
pub fn patterns_of(
    alloc: Global,
    vars: &[SortId],
    body: &Scheme,
    kind: &Kind,
) -> Result<Option<List<Scheme>>, Memory>
    ensures patterns { IfOk result (λ found. PatternsOrNone vars.now body.now kind.now found) }
    ensures formed { IsScheme vars.now body.now → IsFormedKind vars.now kind.now
        → IfOk result (λ found. IfSome found (λ patterns. All (IsScheme vars.now) patterns)) }
    ensures headed { IfOk result (λ found. IfSome found (λ patterns. All IsHeadedByFunction patterns)) }
    ensures variables { IfOk result (λ found. IfSome found (λ patterns. HoldsEach vars.now patterns)) }
{
    let terms = match chosen(alloc, body, kind)? {
        Some(terms) => terms,
        None => return Ok(None),
    };
    if !are_pattern_terms(terms.as_slice()) {
        return Ok(None);
    }
    if !hold_each(vars, terms.as_slice()) {
        return Ok(None);
    }
    Ok(Some(terms))
}

// Copies of the terms that the annotation chooses; None where the formula has no such part.
fn chosen(alloc: Global, body: &Scheme, kind: &Kind) -> Result<Option<List<Scheme>>, Memory>
    ensures { IfOk result (λ found. ChosenOrNone body.now kind.now found) }
{
    match kind {
        Kind::Left => left_side(alloc, body),
        Kind::Right => right_side(alloc, body),
        Kind::Hyps => hypotheses(alloc, body),
        Kind::Concl => by_conclusion(alloc, body),
        Kind::Written(terms) => {
            let copies = copied_list(alloc, terms.as_slice())?;
            Ok(Some(copies))
        }
    }
}

// A copy of the left side of a conclusion that is an equation.
fn left_side(alloc: Global, body: &Scheme) -> Result<Option<List<Scheme>>, Memory>
    ensures { IfOk result (λ found. ChosenOrNone body.now Kind.Left found) }
{
    let Some((left, _right)) = equation(conclusion(body)) else {
        return Ok(None);
    };
    let terms = copied_alone(alloc, left)?;
    Ok(Some(terms))
}

// A copy of the right side of a conclusion that is an equation.
fn right_side(alloc: Global, body: &Scheme) -> Result<Option<List<Scheme>>, Memory>
    ensures { IfOk result (λ found. ChosenOrNone body.now Kind.Right found) }
{
    let Some((_left, right)) = equation(conclusion(body)) else {
        return Ok(None);
    };
    let terms = copied_alone(alloc, right)?;
    Ok(Some(terms))
}

// What a walk over the hypotheses takes; None where there is no hypothesis.
fn hypotheses(alloc: Global, body: &Scheme) -> Result<Option<List<Scheme>>, Memory>
    ensures { IfOk result (λ found. ChosenOrNone body.now Kind.Hyps found) }
{
    let Some((_hyp, _behind)) = implication(body) else {
        return Ok(None);
    };
    let mut taken = List::new(alloc);
    walk_hypotheses(alloc, body, &mut taken)?;
    Ok(Some(taken))
}

// What a walk over the conclusion takes.
fn by_conclusion(alloc: Global, body: &Scheme) -> Result<Option<List<Scheme>>, Memory>
    ensures { IfOk result (λ found. ChosenOrNone body.now Kind.Concl found) }
{
    let mut taken = List::new(alloc);
    walk(alloc, conclusion(body), &mut taken)?;
    Ok(Some(taken))
}
