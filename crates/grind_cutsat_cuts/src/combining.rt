//! Sums of bounds, and their cuts.
ghost use Rattle.std.specs.Prelude.{◌≡◌, [], ◌∷◌, pos, ◌<ℤ◌, IfOk, MatchOption};
ghost use Rattle.grind_linear_forms.specs.Forms.{number_form};
ghost use Rattle.grind_linear_forms.specs.Cuts.{DividesAll, IsCut};
ghost use Rattle.grind_arithmetic_rules.specs.LinearRules.{combined};
ghost use Rattle.grind_claims.specs.declared.claim.Claim.TheVariants.{AtMost};
ghost use Rattle.grind_claims.specs.declared.proof.Rule.TheVariants.{Combine};
ghost use Rattle.grind_linear_forms.specs.Sums.{scaled_sum};
ghost use Rattle.grind_cutsat_units.specs.Posts.{planned};
ghost use Rattle.grind_cutsat_cuts.specs.Cutting.{IsNewCut, NoNewCut};

use crate::divisor::divisor_of;
use grind_claims::{Claim, Rule};
use grind_cutsat_facts::Facts;
use grind_cutsat_units::Planned;
use grind_linear_forms::{Form, FormRefusal, add_scaled, cut, one_cut};
use grind_outside::{List, Memory};
use std::alloc::Global;

/// A form divided by a number.
#[derive(Drop)]
pub struct Cut {
    /// The number.
    pub divisor: i128,
    /// What is left.
    pub form: Form,
}

// The sum, with the form taken so often, where that fits.
fn with_bound(alloc: Global, sum: &Form, form: &Form, factor: i128) -> Result<Option<Form>, Memory>
    ensures { IfOk result (λ found. found ≡ scaled_sum sum.now (pos 1) form.now factor) }
{
    match add_scaled(alloc, sum, 1, form, factor) {
        Ok(more) => Ok(Some(more)),
        Err(FormRefusal::Overflow) => Ok(None),
        Err(FormRefusal::Memory) => Err(Memory),
    }
}

/// A bound that is taken once, where that fits.
pub fn sum_of_one(alloc: Global, form: &Form) -> Result<Option<Form>, Memory>
    ensures { IfOk result (λ found. found ≡ combined (number_form (pos 0)) (pos 1 ∷ []) (AtMost form.now ∷ [])) }
{
    let found = with_bound(alloc, &Form::number(alloc, 0), form, 1)?;
    Ok(found)
}

/// Two bounds that are taken so often, where that fits.
pub fn sum_of_two(
    alloc: Global,
    upper: &Form,
    first: i128,
    lower: &Form,
    second: i128,
) -> Result<Option<Form>, Memory>
    requires first { pos 0 <ℤ first }
    requires second { pos 0 <ℤ second }
    ensures { IfOk result (λ found. found ≡ combined (number_form (pos 0)) (first ∷ second ∷ []) (AtMost upper.now ∷ AtMost lower.now ∷ [])) }
{
    let found = with_bound(alloc, &Form::number(alloc, 0), upper, first)?;
    let Some(sum) = found else {
        return Ok(None);
    };
    let both = with_bound(alloc, &sum, lower, second)?;
    Ok(both)
}

/// The sum divided by the greatest common divisor of its coefficients, where that fits and the cut is not covered.
pub fn new_cut(alloc: Global, facts: &Facts, sum: &Form) -> Result<Option<Cut>, Memory>
    ensures { IfOk result (λ found. MatchOption found (NoNewCut facts.now sum.now) (λ it. IsNewCut facts.now sum.now it.divisor it.form)) }
{
    one_cut();
    let Some(divisor) = divisor_of(sum.parts()) else {
        return Ok(None);
    };
    let form = divided(alloc, sum, divisor)?;
    if facts.covers(&form) {
        return Ok(None);
    }
    Ok(Some(Cut { divisor, form }))
}

// The sum divided by a number that divides its coefficients.
fn divided(alloc: Global, sum: &Form, divisor: i128) -> Result<Form, Memory>
    requires positive { pos 0 <ℤ divisor }
    requires divides { DividesAll divisor sum.now.parts }
    ensures { IfOk result (λ form. IsCut sum.now divisor form) }
{
    match cut(alloc, sum, divisor) {
        Ok(form) => Ok(form),
        Err(_) => Err(Memory),
    }
}

/// The post of a cut, from bounds that are taken so often.
pub fn cut_post(
    alloc: Global,
    cut: Cut,
    factors: List<i128>,
    premises: List<Claim>,
) -> Result<List<Planned>, Memory>
    ensures { IfOk result (λ posts. posts ≡ planned (AtMost cut.form) (Combine cut.divisor factors) premises ∷ []) }
{
    let Cut { divisor, form } = cut;
    let mut posts = List::new(alloc);
    posts.push(Planned {
        claim: Claim::AtMost(form),
        rule: Rule::Combine { divisor, factors },
        premises,
    })?;
    Ok(posts)
}
