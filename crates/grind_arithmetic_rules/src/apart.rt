//! The rule of what is kept apart: apart.
ghost use Rattle.std.specs.Prelude.{IsTrue, ◌↔◌, ◌≡◌, ◌<◌, [], ◌∷◌, Some, length, All, IfOk, ℕ};
ghost use Rattle.grind_linear_forms.specs.Forms.{FormData};
ghost use Rattle.grind_claims.specs.declared.claim.Claim.TheVariants.{Same, Differ};
ghost use Rattle.grind_claims.specs.Claims.{claims_of};
ghost use Rattle.grind_arithmetic_rules.specs.LinearRules.{IsBoundOver, AreApartAlong, KeepApart, IsApart};

use grind_claims::Claim;
use grind_claims::premises::{only_premise, three_premises};
use grind_differences::{are_apart_by_reading, is_more_than_difference};
use grind_outside::Memory;
use grind_term_graph::{NodeId, TermTable};
use std::alloc::Global;

/// apart: two terms that the premises keep apart are different, in either order.
///
/// # Errors
/// `Memory` if out of memory.
pub fn is_apart(
    alloc: Global,
    terms: &TermTable,
    premises: &[&Claim],
    claim: &Claim,
) -> Result<bool, Memory>
    ensures { IfOk result (λ yes. IsTrue yes ↔ IsApart terms.now.nodes (claims_of premises.now) claim.now) }
{
    let Claim::Differ(a, b) = claim else {
        return Ok(false);
    };
    let first = keep_apart(alloc, terms, premises, *a, *b)?;
    let second = keep_apart(alloc, terms, premises, *b, *a)?;
    Ok(first || second)
}

/// Whether the premises keep the two apart.
fn keep_apart(
    alloc: Global,
    terms: &TermTable,
    premises: &[&Claim],
    a: NodeId,
    b: NodeId,
) -> Result<bool, Memory>
    ensures { IfOk result (λ yes. IsTrue yes ↔ KeepApart terms.now.nodes (claims_of premises.now) a b) }
{
    if premises.is_empty() {
        let is = are_apart_by_reading(alloc, terms, a, b)?;
        return Ok(is);
    }
    if let Some(one) = only_premise(premises) {
        let is = is_bound_over(alloc, terms, one, a, b)?;
        return Ok(is);
    }
    Ok(are_apart_along(premises, a, b))
}

/// Whether the claim bounds more than the difference of the two.
fn is_bound_over(
    alloc: Global,
    terms: &TermTable,
    one: &Claim,
    a: NodeId,
    b: NodeId,
) -> Result<bool, Memory>
    ensures { IfOk result (λ yes. IsTrue yes ↔ IsBoundOver terms.now.nodes one.now a b) }
{
    let Claim::AtMost(form) = one else {
        return Ok(false);
    };
    let is = is_more_than_difference(alloc, terms, a, b, form)?;
    Ok(is)
}

/// Whether the two are equal to two different terms.
fn are_apart_along(premises: &[&Claim], a: NodeId, b: NodeId) -> bool
    ensures { IsTrue result ↔ AreApartAlong (claims_of premises.now) a b }
{
    let Some((different, one, other)) = three_premises(premises) else {
        return false;
    };
    let Claim::Differ(c, d) = different else {
        return false;
    };
    let Claim::Same(first, like_first) = one else {
        return false;
    };
    let Claim::Same(second, like_second) = other else {
        return false;
    };
    *first == a && *second == b && like_first == c && like_second == d
}
