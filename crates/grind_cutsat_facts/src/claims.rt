//! Whether two claims are the same.
ghost use Rattle.std.specs.Prelude.{IsTrue, ◌↔◌, ◌≡◌};
ghost use Rattle.grind_claims.specs.declared.claim.Claim.TheVariants.{AtMost, Zero};

use grind_claims::Claim;
use grind_differences::{is_same_form, is_same_poly};
use grind_linear_forms::Form;
use grind_polynomials::Poly;

/// Whether the two claims are the same.
pub fn is_same_claim(one: &Claim, other: &Claim) -> bool
    ensures { IsTrue result ↔ (one.now ≡ other.now) }
{
    match one {
        Claim::Holds(node) => matches!(other, Claim::Holds(it) if it == node),
        Claim::Fails(node) => matches!(other, Claim::Fails(it) if it == node),
        Claim::Same(left, right) => {
            matches!(other, Claim::Same(first, second) if first == left && second == right)
        }
        Claim::Differ(left, right) => {
            matches!(other, Claim::Differ(first, second) if first == left && second == right)
        }
        Claim::AtMost(form) => bounds_form(form, other),
        Claim::Zero(poly) => equates_poly(poly, other),
        Claim::Absurd => matches!(other, Claim::Absurd),
    }
}

/// Whether the claim bounds the form.
fn bounds_form(form: &Form, claim: &Claim) -> bool
    ensures { IsTrue result ↔ (AtMost form.now ≡ claim.now) }
{
    let Claim::AtMost(other) = claim else {
        return false;
    };
    is_same_form(form, other)
}

/// Whether the claim says that the polynomial is 0.
fn equates_poly(poly: &Poly, claim: &Claim) -> bool
    ensures { IsTrue result ↔ (Zero poly.now ≡ claim.now) }
{
    let Claim::Zero(other) = claim else {
        return false;
    };
    is_same_poly(poly, other)
}
