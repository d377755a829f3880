//! The rule of what a branch assumes: branch.
ghost use Rattle.std.specs.Prelude.{IsTrue, ◌↔◌, ◌≡◌, option_copied};
ghost use Rattle.grind_claims.specs.Claims.{claims_of};
ghost use Rattle.grind_rules.specs.Rules.{IsAssumed};

use grind_claims::Claim;
use grind_differences::{is_same_form, is_same_poly};

/// branch: from nothing, what the branch assumes.
pub fn is_assumed(literal: Option<&Claim>, premises: &[&Claim], claim: &Claim) -> bool
    ensures { IsTrue result ↔ IsAssumed (option_copied literal.entry) (claims_of premises.now) claim.now }
{
    let Some(assumed) = literal else {
        return false;
    };
    premises.is_empty() && is_same_claim(assumed, claim)
}

/// Whether the claims are the same.
fn is_same_claim(one: &Claim, other: &Claim) -> bool
    ensures { IsTrue result ↔ (one.now ≡ other.now) }
{
    match one {
        Claim::Holds(node) => matches!(other, Claim::Holds(same) if same == node),
        Claim::Fails(node) => matches!(other, Claim::Fails(same) if same == node),
        Claim::Same(a, b) => matches!(other, Claim::Same(c, d) if a == c && b == d),
        Claim::Differ(a, b) => matches!(other, Claim::Differ(c, d) if a == c && b == d),
        Claim::AtMost(form) => matches!(other, Claim::AtMost(same) if is_same_form(form, same)),
        Claim::Zero(poly) => matches!(other, Claim::Zero(same) if is_same_poly(poly, same)),
        Claim::Absurd => matches!(other, Claim::Absurd),
    }
}
