//! A literal of a comparison that a fact or the readings alone settle.
ghost use Rattle.std.specs.Prelude.{◌≡◌, [], ◌∷◌, pos, ◌≤ℤ◌, IfOk, IsTrue, ◌↔◌};
ghost use Rattle.grind_arithmetic_rules.specs.LinearRules.{IsWrite};
ghost use Rattle.grind_cutsat_facts.specs.Facts.{Stands};
ghost use Rattle.grind_cutsat_units.specs.Posts.{IsFound, AtSomeFact};
ghost use Rattle.grind_cutsat_terms.specs.Settling.{WriteGives, ReadingGives, LiteralGives};

use crate::posts::{read_posts, written_post};
use grind_arithmetic_rules::is_write;
use grind_claims::Claim;
use grind_cutsat_units::sides::form_read;
use grind_cutsat_units::{Draft, View, drafted};
use grind_linear_forms::Form;
use grind_outside::{List, Memory};
use grind_term_graph::TermTable;
use std::alloc::Global;

// The drafts of a literal that a fact or the readings settle.
pub(crate) fn settles_a_literal(
    alloc: Global,
    view: &View,
    literal: &Claim,
) -> Result<Option<List<Draft>>, Memory>
    ensures { IfOk result (λ found. IsFound view.now.facts.now view.now.next
        (LiteralGives view.now.terms.now.nodes view.now.facts.now literal.now) found) }
{
    let written = written_from_some(alloc, view, literal)?;
    if let Some(drafts) = written {
        return Ok(Some(drafts));
    }
    let read = settled_by_reading(alloc, view, literal)?;
    Ok(read)
}

// The draft of the literal, if a fact lets it be written.
fn written_from_some(
    alloc: Global,
    view: &View,
    literal: &Claim,
) -> Result<Option<List<Draft>>, Memory>
    ensures { IfOk result (λ found. IsFound view.now.facts.now view.now.next
        (AtSomeFact view.now.facts.now (WriteGives view.now.terms.now.nodes literal.now)) found) }
{
    let mut rest = view.facts.as_slice();
    while let Some((fact, tail)) = rest.split_first() {
        let found = written_from(alloc, view, literal, &fact.claim)?;
        if let Some(drafts) = found {
            return Ok(Some(drafts));
        }
        rest = tail;
    }
    Ok(None)
}

// The draft of the literal, if the claim lets it be written.
fn written_from(
    alloc: Global,
    view: &View,
    literal: &Claim,
    claim: &Claim,
) -> Result<Option<List<Draft>>, Memory>
    requires { Stands view.now.facts.now claim.now }
    ensures { IfOk result (λ found. IsFound view.now.facts.now view.now.next
        (WriteGives view.now.terms.now.nodes literal.now claim.now) found) }
{
    let Claim::AtMost(form) = claim else {
        return Ok(None);
    };
    let writes = writes(alloc, view.terms, claim, literal)?;
    if !writes {
        return Ok(None);
    }
    let posts = written_post(alloc, literal, form)?;
    let drafts = drafted(alloc, view, posts.as_slice())?;
    Ok(drafts)
}

// Whether the rule `write` allows the literal from the claim.
fn writes(alloc: Global, terms: &TermTable, claim: &Claim, literal: &Claim) -> Result<bool, Memory>
    ensures { IfOk result (λ yes. IsTrue yes ↔ IsWrite terms.now.nodes (claim.now ∷ []) literal.now) }
{
    let writes = is_write(alloc, terms, &[claim], literal)?;
    Ok(writes)
}

// The drafts of the literal, if the readings alone settle it.
fn settled_by_reading(
    alloc: Global,
    view: &View,
    literal: &Claim,
) -> Result<Option<List<Draft>>, Memory>
    ensures { IfOk result (λ found. IsFound view.now.facts.now view.now.next
        (ReadingGives view.now.terms.now.nodes literal.now) found) }
{
    let form = form_read(alloc, view.terms, literal)?;
    let Some(form) = form else {
        return Ok(None);
    };
    if !is_low(&form) {
        return Ok(None);
    }
    let posts = read_posts(alloc, literal, &form)?;
    let drafts = drafted(alloc, view, posts.as_slice())?;
    Ok(drafts)
}

// Whether the form is a number of at most 0.
fn is_low(form: &Form) -> bool
    ensures { IsTrue result ↔ ((form.now.parts ≡ []) × (form.now.constant ≤ℤ pos 0)) }
{
    form.parts().is_empty() && form.constant() <= 0
}
