//! What each rule allows: the function of the rule, named as the rule is.
ghost use Rattle.std.specs.Prelude.{IsTrue, ◌↔◌, IfOk, IsOk, option_copied};
ghost use Rattle.grind_claims.specs.Claims.{IsFormed, claims_of};
ghost use Rattle.grind_rules.specs.Rules.{RuleAllows, TakesNoMemory};

use crate::assumed::is_assumed;
use crate::clash::is_clash;
use grind_arithmetic_rules::{
    is_apart, is_combine, is_equal, is_ideal, is_line, is_pinch, is_poly_rule, is_read, is_strict,
    is_write,
};
use grind_claims::{Claim, Rule};
use grind_outside::Memory;
use grind_term_rules::{
    Setting, is_back, is_cong, is_eq, is_hyp, is_inst, is_negated, is_refl, is_sym, is_trans,
    is_truth, is_untruth,
};
use grind_truth_tables::is_table;
use std::alloc::Global;

/// Whether the rule allows the claim, which is well formed over the terms, from premises that claim this.
///
/// # Errors
/// `Memory` if out of memory. Only the rule `table` and the rules over forms and polynomials take memory.
pub fn rule_allows(
    alloc: Global,
    setting: &Setting,
    rule: &Rule,
    premises: &[&Claim],
    claim: &Claim,
) -> Result<bool, Memory>
    requires formed { IsFormed setting.now.terms.now.nodes claim.now }
    ensures exact { IfOk result (λ yes. IsTrue yes ↔ RuleAllows setting.now.lemmas.now setting.now.goal.now setting.now.terms.now.nodes
        (option_copied setting.now.literal) rule.now (claims_of premises.now) claim.now) }
    ensures ready { TakesNoMemory rule.now → IsOk result }
{
    let terms = setting.terms;
    match rule {
        Rule::Table(free) => {
            let answer = is_table(alloc, terms, free.as_slice(), premises, claim)?;
            Ok(answer)
        }
        Rule::Combine { divisor, factors } => {
            let factors = factors.as_slice();
            let answer = is_combine(alloc, *divisor, factors, premises, claim)?;
            Ok(answer)
        }
        Rule::Ideal { divisor, factors } => {
            let factors = factors.as_slice();
            let answer = is_ideal(alloc, *divisor, factors, premises, claim)?;
            Ok(answer)
        }
        Rule::Poly => Ok(is_poly_rule(alloc, terms, premises, claim)?),
        Rule::Equal => Ok(is_equal(alloc, terms, premises, claim)?),
        Rule::Read => Ok(is_read(alloc, terms, premises, claim)?),
        Rule::Write => Ok(is_write(alloc, terms, premises, claim)?),
        Rule::Line => Ok(is_line(alloc, terms, premises, claim)?),
        Rule::Pinch => Ok(is_pinch(alloc, terms, premises, claim)?),
        Rule::Strict => Ok(is_strict(alloc, terms, premises, claim)?),
        Rule::Apart => Ok(is_apart(alloc, terms, premises, claim)?),
        _ => Ok(allows_at_once(setting, rule, premises, claim)),
    }
}

/// The same for a rule that takes no memory.
fn allows_at_once(setting: &Setting, rule: &Rule, premises: &[&Claim], claim: &Claim) -> bool
    requires light { TakesNoMemory rule.now }
    requires formed { IsFormed setting.now.terms.now.nodes claim.now }
    ensures { IsTrue result ↔ RuleAllows setting.now.lemmas.now setting.now.goal.now setting.now.terms.now.nodes
        (option_copied setting.now.literal) rule.now (claims_of premises.now) claim.now }
{
    let terms = setting.terms;
    let goal = setting.goal;
    match rule {
        Rule::Hyp(i) => is_hyp(goal, *i, premises, claim),
        Rule::Negated => is_negated(goal, premises, claim),
        Rule::Inst { theorem, subst } => {
            let subst = subst.as_slice();
            is_inst(setting, *theorem, subst, premises, claim)
        }
        Rule::Branch => is_assumed(setting.literal, premises, claim),
        Rule::Refl => is_refl(premises, claim),
        Rule::Sym => is_sym(premises, claim),
        Rule::Trans => is_trans(premises, claim),
        Rule::Cong => is_cong(terms, premises, claim),
        Rule::Eq => is_eq(terms, premises, claim),
        Rule::Back => is_back(terms, premises, claim),
        Rule::Truth => is_truth(premises, claim),
        Rule::Untruth => is_untruth(premises, claim),
        Rule::Clash => is_clash(terms, premises, claim),
        _ => false,
    }
}
