//! What a branch may assume, and which assumptions are opposite.
ghost use Rattle.std.specs.Prelude.{IsTrue, ◌↔◌, ◌≡◌, All, map, pos, ◌+ℤ◌, neg_ℤ, FitsSigned, IfOk};
ghost use Rattle.std.specs.Int.{w128};
ghost use Rattle.grind_linear_forms.specs.declared.form.Part.{Part as PartData};
ghost use Rattle.grind_claims.specs.declared.claim.Claim.TheVariants.{AtMost};
ghost use Rattle.grind_differences.specs.Bounds.{negated_part, opposite_form, HasOpposite};
ghost use Rattle.grind_proof_kernel.specs.Literals.{IsLiteral, AreOpposite};

use grind_claims::Claim;
use grind_differences::{has_opposite, is_opposite_form};
use grind_linear_forms::{Form, Part};
use grind_outside::{List, Memory};
use std::alloc::Global;

/// Whether the claim is one that a branch may assume.
pub fn is_literal(claim: &Claim) -> bool
    ensures { IsTrue result ↔ IsLiteral claim.now }
{
    match claim {
        Claim::Holds(_) => true,
        Claim::Fails(_) => true,
        Claim::Same(_, _) => false,
        Claim::Differ(_, _) => false,
        Claim::AtMost(form) => has_opposite(form),
        Claim::Zero(_) => false,
        Claim::Absurd => false,
    }
}

/// Whether one of the claims says that a formula holds and the other that it fails, or the other bounds the opposite form.
pub fn are_opposite(one: &Claim, other: &Claim) -> bool
    ensures { IsTrue result ↔ AreOpposite one.now other.now }
{
    match one {
        Claim::Holds(node) => matches!(other, Claim::Fails(failing) if failing == node),
        Claim::Fails(node) => matches!(other, Claim::Holds(holding) if holding == node),
        Claim::Same(_, _) => false,
        Claim::Differ(_, _) => false,
        Claim::AtMost(form) => bounds_opposite(form, other),
        Claim::Zero(_) => false,
        Claim::Absurd => false,
    }
}

/// Whether the claim bounds the form that is opposite to this one.
fn bounds_opposite(form: &Form, claim: &Claim) -> bool
    ensures { IsTrue result ↔ (claim.now ≡ AtMost (opposite_form form.now)) }
{
    let Claim::AtMost(other) = claim else {
        return false;
    };
    is_opposite_form(form, other)
}

/// The opposite of what a branch may assume.
///
/// # Errors
/// `Memory` where there is none.
pub fn opposite(alloc: Global, literal: &Claim) -> Result<Claim, Memory>
    requires { IsLiteral literal.now }
    ensures { IfOk result (λ other. AreOpposite literal.now other) }
{
    match literal {
        Claim::Holds(node) => Ok(Claim::Fails(*node)),
        Claim::Fails(node) => Ok(Claim::Holds(*node)),
        Claim::AtMost(form) => {
            let other = opposite_form(alloc, form)?;
            Ok(Claim::AtMost(other))
        }
        // No other claim is a literal.
        _ => Ok(Claim::Absurd),
    }
}

/// 1 less the form.
fn opposite_form(alloc: Global, form: &Form) -> Result<Form, Memory>
    requires { HasOpposite form.now }
    ensures { IfOk result (λ other. other ≡ opposite_form form.now) }
{
    let parts = negated_parts(alloc, form.parts())?;
    let constant = one_less(form.constant());
    Ok(Form { parts, constant })
}

/// 1 less the number.
fn one_less(number: i128) -> i128
    requires { FitsSigned w128 (pos 1 +ℤ neg_ℤ number) }
    ensures { result ≡ pos 1 +ℤ neg_ℤ number }
{
    1 - number
}

/// The parts with their coefficients negated.
fn negated_parts(alloc: Global, parts: &[Part]) -> Result<List<Part>, Memory>
    requires { All (λ (part : PartData). FitsSigned w128 (neg_ℤ part.coefficient)) parts.now }
    ensures { IfOk result (λ others. others ≡ map negated_part parts.now) }
{
    let mut others = List::new(alloc);
    let mut rest = parts;
    while let Some((part, tail)) = rest.split_first() {
        let other = negated(*part);
        others.push(other)?;
        rest = tail;
    }
    Ok(others)
}

/// The part with its coefficient negated.
fn negated(part: Part) -> Part
    requires { FitsSigned w128 (neg_ℤ part.coefficient) }
    ensures { result ≡ negated_part part }
{
    Part {
        coefficient: -part.coefficient,
        node: part.node,
    }
}
