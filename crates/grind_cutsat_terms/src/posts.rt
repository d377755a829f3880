//! Posts of what is settled.
ghost use Rattle.std.specs.Prelude.{◌≡◌, [], ◌∷◌, IfOk, OnOk, ◌++◌};
ghost use Rattle.grind_claims.specs.declared.claim.Claim.TheVariants.{AtMost, Differ};
ghost use Rattle.grind_claims.specs.declared.proof.Rule.TheVariants.{Write, Apart};
ghost use Rattle.grind_cutsat_units.specs.Posts.{planned};
ghost use Rattle.grind_cutsat_terms.specs.Settling.{read_posts};

use grind_claims::{Claim, Rule};
use grind_cutsat_units::Planned;
use grind_linear_forms::Form;
use grind_outside::{List, Memory};
use std::alloc::Global;

// One post, from these claims.
pub(crate) fn post_from(
    alloc: Global,
    claim: Claim,
    rule: Rule,
    premises: List<Claim>,
) -> Result<List<Planned>, Memory>
    ensures { IfOk result (λ posts. posts ≡ planned claim rule premises ∷ []) }
{
    let mut posts = List::new(alloc);
    posts.push(Planned {
        claim,
        rule,
        premises,
    })?;
    Ok(posts)
}

// The claim that the form is at most 0, alone.
pub(crate) fn bound_alone(alloc: Global, form: &Form) -> Result<List<Claim>, Memory>
    ensures { IfOk result (λ premises. premises ≡ AtMost form.now ∷ []) }
{
    let mut premises = List::new(alloc);
    let form = form.copy(alloc)?;
    premises.push(Claim::AtMost(form))?;
    Ok(premises)
}

// The literal that is written from a bound.
pub(crate) fn written_post(
    alloc: Global,
    literal: &Claim,
    form: &Form,
) -> Result<List<Planned>, Memory>
    ensures { IfOk result (λ posts. posts ≡ planned literal.now Write (AtMost form.now ∷ []) ∷ []) }
{
    let premises = bound_alone(alloc, form)?;
    let claim = literal.copy(alloc)?;
    let posts = post_from(alloc, claim, Rule::Write, premises)?;
    Ok(posts)
}

// The bound that is combined from nothing, and the literal that is written from it.
pub(crate) fn read_posts(
    alloc: Global,
    literal: &Claim,
    form: &Form,
) -> Result<List<Planned>, Memory>
    ensures { IfOk result (λ posts. posts ≡ read_posts literal.now form.now) }
{
    let bound = form.copy(alloc)?;
    let rule = Rule::Combine {
        divisor: 1,
        factors: List::new(alloc),
    };
    let mut posts = post_from(alloc, Claim::AtMost(bound), rule, List::new(alloc))?;
    let premises = bound_alone(alloc, form)?;
    let claim = literal.copy(alloc)?;
    posts.push(Planned {
        claim,
        rule: Rule::Write,
        premises,
    })?;
    Ok(posts)
}
