//! Cases whose posts are counted and that are left.
ghost use Rattle.std.specs.Prelude.{◌≡◌, ℕ, IfOk, MatchOption};
ghost use Rattle.grind_cutsat_assignment.specs.Given.{given};
ghost use Rattle.grind_cutsat_evidence.specs.Evidence.{IsLeftAlone, AreLeftTogether, AreLeft};
ghost use Rattle.grind_cutsat_evidence.specs.Pairs.{RestsOn, RestsOnTwo};

use crate::pairs::Pair;
use grind_cutsat_cuts::{cuts_a_bound, resolves_two_bounds};
use grind_cutsat_units::units::reads_an_equation::reads_an_equation;
use grind_cutsat_units::{Draft, View};
use grind_outside::Memory;
use std::alloc::Global;

/// The posts from which a counted case makes something new.
///
/// # Errors
///
/// `Memory` if out of memory.
pub fn left(alloc: Global, view: &View) -> Result<Option<Pair>, Memory>
    ensures { IfOk result (λ found. MatchOption found
        ((first second : ℕ) → ¬ AreLeft (given view.now.facts.now view.now.terms.now.nodes view.now.classes.now.lists) first second)
        (λ pair. AreLeft (given view.now.facts.now view.now.terms.now.nodes view.now.classes.now.lists) pair.first pair.second)) }
{
    let alone = left_alone(alloc, view)?;
    if let Some(post) = alone {
        return Ok(Some(Pair {
            first: post,
            second: post,
        }));
    }
    let together = left_together(alloc, view)?;
    Ok(together)
}

// A post that is an equation that can still be read, or a bound that can be cut.
fn left_alone(alloc: Global, view: &View) -> Result<Option<u32>, Memory>
    ensures { IfOk result (λ found. MatchOption found
        ((post : ℕ) → ¬ IsLeftAlone (given view.now.facts.now view.now.terms.now.nodes view.now.classes.now.lists) post)
        (IsLeftAlone (given view.now.facts.now view.now.terms.now.nodes view.now.classes.now.lists))) }
{
    let equation = reads_an_equation(alloc, view)?;
    if let Some(drafts) = equation {
        return Ok(Some(premise(drafts.as_slice())));
    }
    let cut = cuts_a_bound(alloc, view)?;
    if let Some(drafts) = cut {
        return Ok(Some(premise(drafts.as_slice())));
    }
    Ok(None)
}

// Two posts that are bounds that can still be resolved.
fn left_together(alloc: Global, view: &View) -> Result<Option<Pair>, Memory>
    ensures { IfOk result (λ found. MatchOption found
        ((above below : ℕ) → ¬ AreLeftTogether (given view.now.facts.now view.now.terms.now.nodes view.now.classes.now.lists) above below)
        (λ pair. AreLeftTogether (given view.now.facts.now view.now.terms.now.nodes view.now.classes.now.lists) pair.first pair.second)) }
{
    let resolved = resolves_two_bounds(alloc, view)?;
    if let Some(drafts) = resolved {
        return Ok(Some(two_premises(drafts.as_slice())));
    }
    Ok(None)
}

// The first post on which the first draft rests.
fn premise(drafts: &[Draft]) -> u32
    requires { (post : ℕ) × RestsOn drafts.now post }
    ensures { RestsOn drafts.now result }
{
    drafts[0].from.as_slice()[0]
}

// The first two posts on which the first draft rests.
fn two_premises(drafts: &[Draft]) -> Pair
    requires { (first : ℕ) × (second : ℕ) × RestsOnTwo drafts.now first second }
    ensures { RestsOnTwo drafts.now result.first result.second }
{
    let from = drafts[0].from.as_slice();
    Pair {
        first: from[0],
        second: from[1],
    }
}
