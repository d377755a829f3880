//! Posts of a case.
ghost use Rattle.std.specs.Prelude.{◌≡◌, [], ◌∷◌, ◌++◌, pos, IfOk, OnOk};
ghost use Rattle.grind_claims.specs.declared.claim.Claim.TheVariants.{Differ, AtMost};
ghost use Rattle.grind_claims.specs.declared.proof.Rule.TheVariants.{Combine, Strict};
ghost use Rattle.grind_cutsat_units.specs.Posts.{planned};

use crate::sides::Sides;
use crate::types::Planned;
use grind_claims::{Claim, Rule};
use grind_linear_forms::Form;
use grind_outside::{List, Memory};
use std::alloc::Global;

/// One post, from one claim.
pub fn one_post(
    alloc: Global,
    claim: Claim,
    rule: Rule,
    premise: &Claim,
) -> Result<List<Planned>, Memory>
    ensures { IfOk result (λ posts. posts ≡ planned claim rule (premise.now ∷ []) ∷ []) }
{
    let mut posts = List::new(alloc);
    put_post(alloc, &mut posts, claim, rule, premise)?;
    Ok(posts)
}

/// One post by the rule `combine` with the divisor 1, from one claim taken so often.
pub fn combine_post(
    alloc: Global,
    form: Form,
    factor: i128,
    premise: &Claim,
) -> Result<List<Planned>, Memory>
    ensures { IfOk result (λ posts. posts ≡ planned (AtMost form) (Combine (pos 1) (factor ∷ [])) (premise.now ∷ []) ∷ []) }
{
    let mut factors = List::new(alloc);
    factors.push(factor)?;
    let rule = Rule::Combine {
        divisor: 1,
        factors,
    };
    let posts = one_post(alloc, Claim::AtMost(form), rule, premise)?;
    Ok(posts)
}

/// One post by the rule `strict`, from the difference of the two and a bound.
pub fn strict_post(
    alloc: Global,
    form: Form,
    sides: &Sides,
    bound: &Claim,
) -> Result<List<Planned>, Memory>
    ensures { IfOk result (λ posts. posts ≡ planned (AtMost form) Strict (Differ sides.now.left sides.now.right ∷ bound.now ∷ []) ∷ []) }
{
    let mut premises = List::new(alloc);
    premises.push(Claim::Differ(sides.left, sides.right))?;
    let bound = bound.copy(alloc)?;
    premises.push(bound)?;
    let mut posts = List::new(alloc);
    posts.push(Planned {
        claim: Claim::AtMost(form),
        rule: Rule::Strict,
        premises,
    })?;
    Ok(posts)
}

/// Puts a post at the end, from one claim.
pub fn put_post(
    alloc: Global,
    posts: &mut List<Planned>,
    claim: Claim,
    rule: Rule,
    premise: &Claim,
) -> Result<(), Memory>
    ensures { OnOk result (posts.new ≡ posts.old ++ planned claim rule (premise.now ∷ []) ∷ []) }
{
    let mut premises = List::new(alloc);
    let premise = premise.copy(alloc)?;
    premises.push(premise)?;
    posts.push(Planned {
        claim,
        rule,
        premises,
    })?;
    Ok(())
}
