//! Which bounds say nothing new.
ghost use Rattle.std.specs.Prelude.{IsTrue, ◌↔◌};
ghost use Rattle.grind_cutsat_facts.specs.Covering.{Covers, HasCover, SaysNothing, IsCovered};

use crate::facts::Fact;
use grind_claims::Claim;
use grind_differences::bounds::is_at_least;
use grind_linear_forms::Form;

/// Whether the form is covered: it is a number of at most 0, or a fact bounds a form with the same parts and a constant
/// that is at least as great.
pub fn is_covered(facts: &[Fact], form: &Form) -> bool
    ensures { IsTrue result ↔ IsCovered facts.now form.now }
{
    if says_nothing(form) {
        return true;
    }
    has_cover(facts, form)
}

/// Whether the form is a number of at most 0.
fn says_nothing(form: &Form) -> bool
    ensures { IsTrue result ↔ SaysNothing form.now }
{
    form.parts().is_empty() && form.constant() <= 0
}

/// Whether one of the facts covers the form.
fn has_cover(facts: &[Fact], form: &Form) -> bool
    ensures { IsTrue result ↔ HasCover facts.now form.now }
{
    let mut rest = facts;
    while let Some((fact, tail)) = rest.split_first() {
        if covers(&fact.claim, form) {
            return true;
        }
        rest = tail;
    }
    false
}

/// Whether the claim covers the form.
pub fn covers(claim: &Claim, form: &Form) -> bool
    ensures { IsTrue result ↔ Covers claim.now form.now }
{
    let Claim::AtMost(other) = claim else {
        return false;
    };
    is_at_least(form, other)
}
