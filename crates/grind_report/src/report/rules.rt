//! The words of a rule.
ghost use Rattle.std.specs.Prelude.{◌≡◌, ◌++◌, length, All, OnOk};
ghost use Rattle.grind_report.specs.Report.{spaced, rule_word, rule_details, rule_words, premise_words, IsShort, RuleFits, FactorsFit, TakesPremises};

use crate::report::{forms, words};
use grind_outside::{List, Memory};
use grind_proof_kernel::Rule;

/// The word that a rule begins with.
fn word_of_rule(rule: &Rule) -> &'static [u8]
    ensures { result.now ≡ rule_word rule.now }
{
    match rule {
        Rule::Hyp(_) => b"hyp",
        Rule::Negated => b"negated",
        Rule::Inst { .. } => b"inst",
        Rule::Branch => b"branch",
        Rule::Refl => b"refl",
        Rule::Sym => b"sym",
        Rule::Trans => b"trans",
        Rule::Cong => b"cong",
        Rule::Eq => b"eq",
        Rule::Back => b"back",
        Rule::Truth => b"truth",
        Rule::Untruth => b"untruth",
        Rule::Table(_) => b"table",
        Rule::Read => b"read",
        Rule::Write => b"write",
        Rule::Line => b"line",
        Rule::Poly => b"poly",
        Rule::Combine { .. } => b"combine",
        Rule::Pinch => b"pinch",
        Rule::Strict => b"strict",
        Rule::Apart => b"apart",
        Rule::Ideal { .. } => b"ideal",
        Rule::Equal => b"equal",
        Rule::Clash => b"clash",
    }
}

/// The numbers of a rule: that of the hypothesis, that of the theorem and its nodes, the count of the free nodes and
/// these, or the divisor.
fn put_details(out: &mut List<u8>, rule: &Rule) -> Result<(), Memory>
    ensures text { OnOk result (out.new ≡ out.old ++ spaced (rule_details rule.now)) }
    ensures fits { OnOk result (RuleFits rule.now) }
{
    match rule {
        Rule::Hyp(number) => {
            words::put_number(out, *number)?;
            Ok(())
        }
        Rule::Inst { theorem, subst } => {
            words::put_number(out, *theorem)?;
            words::put_nodes(out, subst.as_slice())?;
            Ok(())
        }
        Rule::Table(free) => {
            words::put_number(out, free.len() as u32)?;
            words::put_nodes(out, free.as_slice())?;
            Ok(())
        }
        Rule::Combine { divisor, .. } => {
            words::put_integer(out, *divisor)?;
            Ok(())
        }
        Rule::Ideal { divisor, .. } => {
            words::put_integer(out, *divisor)?;
            Ok(())
        }
        _ => Ok(()),
    }
}

/// The words of a rule, before its premises.
pub fn put_rule(out: &mut List<u8>, rule: &Rule) -> Result<(), Memory>
    ensures text { OnOk result (out.new ≡ out.old ++ spaced (rule_words rule.now)) }
    ensures fits { OnOk result (RuleFits rule.now) }
{
    words::put_word(out, word_of_rule(rule))?;
    put_details(out, rule)?;
    Ok(())
}

/// The premises of a rule, with their factors if it has such.
pub fn put_premises(out: &mut List<u8>, rule: &Rule, premises: &[u32]) -> Result<(), Memory>
    requires { TakesPremises rule.now (length premises.now) }
    ensures text { OnOk result (out.new ≡ out.old ++ spaced (premise_words rule.now premises.now)) }
    ensures fits { OnOk result (FactorsFit rule.now) }
    ensures short { All IsShort premises.now }
{
    match rule {
        Rule::Combine { factors, .. } => {
            forms::put_factors(out, factors.as_slice(), premises)?;
            Ok(())
        }
        Rule::Ideal { factors, .. } => {
            forms::put_poly_factors(out, factors.as_slice(), premises)?;
            Ok(())
        }
        _ => {
            words::put_numbers(out, premises)?;
            Ok(())
        }
    }
}
