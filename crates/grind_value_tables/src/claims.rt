//! Which claims a table of values makes true.
ghost use Rattle.std.specs.Prelude.{IsTrue, ◌↔◌, ◌<◌, ◌≡◌, ◌≤ℤ◌, All, length, pos, None, IfOk, IsErr};
ghost use Rattle.grind_linear_forms.specs.declared.form.Part as parts;
ghost use Rattle.grind_linear_forms.specs.Values.{form_value};
ghost use Rattle.grind_polynomials.specs.declared.poly.Term as terms;
ghost use Rattle.grind_polynomials.specs.Values.{poly_value};
ghost use Rattle.grind_value_tables.specs.Overflows.{value_of, ClaimOverflows};
ghost use Rattle.grind_value_tables.specs.Evaluations as specs;
ghost use Rattle.grind_value_tables.specs.Truths.{ClaimTrue, IsWithin};

use crate::evaluation::{form_sum, poly_sum};
use crate::values::{Overflow, Values, value};
use grind_linear_forms::Form;
use grind_polynomials::Poly;
use grind_proof_kernel::Claim;

/// Whether the claim is true at these values. Its nodes have values.
///
/// # Errors
/// `Overflow` exactly where the claim bounds a form, or says that a polynomial is 0, and some product or sum on the way to
/// its value does not fit in 128 bits.
pub fn claim_true(claim: &Claim, values: &Values) -> Result<bool, Overflow>
    requires { IsWithin (length values.now.list) claim.now }
    ensures exact { IfOk result (λ holds. IsTrue holds ↔ ClaimTrue (value_of values.now.list) claim.now) }
    ensures overflow { IsErr result ↔ ClaimOverflows (value_of values.now.list) claim.now }
{
    let list = values.list.as_slice();
    match claim {
        Claim::Holds(node) => Ok(value(list, *node) == 1),
        Claim::Fails(node) => Ok(value(list, *node) == 0),
        Claim::Same(left, right) => Ok(value(list, *left) == value(list, *right)),
        Claim::Differ(left, right) => Ok(value(list, *left) != value(list, *right)),
        Claim::AtMost(form) => {
            let answer = is_at_most(list, form)?;
            Ok(answer)
        }
        Claim::Zero(poly) => {
            let answer = is_zero(list, poly)?;
            Ok(answer)
        }
        Claim::Absurd => Ok(false),
    }
}

// Whether the form is at most 0.
fn is_at_most(list: &[i128], form: &Form) -> Result<bool, Overflow>
    requires { All (λ (part : parts.Part). part.node < length list.now) form.now.parts }
    ensures exact { IfOk result (λ holds. IsTrue holds ↔ (form_value (value_of list.now) form.now ≤ℤ pos 0)) }
    ensures overflow { IsErr result ↔ (specs.form_sum (value_of list.now) form.now ≡ None) }
{
    match form_sum(list, form) {
        Some(sum) => Ok(sum <= 0),
        None => Err(Overflow),
    }
}

// Whether the polynomial is 0.
fn is_zero(list: &[i128], poly: &Poly) -> Result<bool, Overflow>
    requires { All (λ (term : terms.Term). All (λ n. n < length list.now) term.monomial) poly.now }
    ensures exact { IfOk result (λ holds. IsTrue holds ↔ (poly_value (value_of list.now) poly.now ≡ pos 0)) }
    ensures overflow { IsErr result ↔ (specs.poly_sum (value_of list.now) poly.now ≡ None) }
{
    match poly_sum(list, poly) {
        Some(sum) => Ok(sum == 0),
        None => Err(Overflow),
    }
}
