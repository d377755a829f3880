//! Bounds that cannot be.
ghost use Rattle.std.specs.Prelude.{ℕ, MatchOption, IsTrue, ◌↔◌};
ghost use Rattle.grind_arithmetic_rules.specs.LinearRules.{IsTooGreat};
ghost use Rattle.grind_cutsat_assignment.specs.Given.{given};
ghost use Rattle.grind_cutsat_units.specs.Clashes.{Clashes};

use crate::types::View;
use grind_claims::Claim;

/// A post that says that a number over 0 is at most 0, if there is one.
pub fn clashes(view: &View) -> Option<u32>
    ensures { MatchOption result
        ((post : ℕ) → ¬ Clashes (given view.now.facts.now view.now.terms.now.nodes view.now.classes.now.lists) post)
        (λ post. Clashes (given view.now.facts.now view.now.terms.now.nodes view.now.classes.now.lists) post) }
{
    let mut rest = view.facts.as_slice();
    while let Some((fact, tail)) = rest.split_first() {
        if is_too_great(&fact.claim) {
            return Some(fact.post);
        }
        rest = tail;
    }
    None
}

/// Whether the claim says that a number over 0 is at most 0.
fn is_too_great(claim: &Claim) -> bool
    ensures { IsTrue result ↔ IsTooGreat claim.now }
{
    let Claim::AtMost(form) = claim else {
        return false;
    };
    form.parts().is_empty() && form.constant() > 0
}
