//! Reading a known comparison.
ghost use Rattle.std.specs.Prelude.{ℕ, IfOk};
ghost use Rattle.grind_cutsat_facts.specs.Facts.{Stands};
ghost use Rattle.grind_cutsat_assignment.specs.Given.{given};
ghost use Rattle.grind_cutsat_units.specs.Posts.{IsFound};
ghost use Rattle.grind_cutsat_units.specs.Comparisons.{ComparisonGives, ReadsComparison};

use crate::drafting::drafted;
use crate::posts::one_post;
use crate::sides::form_read;
use crate::types::{Draft, View};
use grind_claims::{Claim, Rule};
use grind_outside::{List, Memory};
use std::alloc::Global;

/// The drafts of a known comparison that gives anything new, by the rule `read`.
///
/// # Errors
///
/// `Memory` if out of memory.
pub fn reads_a_comparison(alloc: Global, view: &View) -> Result<Option<List<Draft>>, Memory>
    ensures { IfOk result (λ found. IsFound view.now.facts.now view.now.next (λ posts. (post : ℕ)
        × ReadsComparison (given view.now.facts.now view.now.terms.now.nodes view.now.classes.now.lists) post posts) found) }
{
    let mut rest = view.facts.as_slice();
    while let Some((fact, tail)) = rest.split_first() {
        let found = comparison_at(alloc, view, &fact.claim)?;
        if let Some(drafts) = found {
            return Ok(Some(drafts));
        }
        rest = tail;
    }
    Ok(None)
}

/// What the claim gives, if it is a literal of a comparison.
fn comparison_at(alloc: Global, view: &View, literal: &Claim) -> Result<Option<List<Draft>>, Memory>
    requires { Stands view.now.facts.now literal.now }
    ensures { IfOk result (λ found. IsFound view.now.facts.now view.now.next
        (ComparisonGives view.now.terms.now.nodes literal.now) found) }
{
    let form = form_read(alloc, view.terms, literal)?;
    let Some(form) = form else {
        return Ok(None);
    };
    let posts = one_post(alloc, Claim::AtMost(form), Rule::Read, literal)?;
    let drafts = drafted(alloc, view, posts.as_slice())?;
    Ok(drafts)
}
