//! How many premises a rule is printed with.
ghost use Rattle.std.specs.Prelude.{◌≡◌, IsTrue, All, length};
ghost use Rattle.grind_claims.specs.declared.proof.Line.{Line as ALine};
ghost use Rattle.grind_report.specs.Report.{TakesPremises};

use grind_proof_kernel::{Line, Rule};

/// Whether each rule has as many premises as are printed with it.
pub fn take_premises(lines: &[Line]) -> bool
    ensures { IsTrue result → All (λ (line : ALine). TakesPremises line.rule (length line.premises)) lines.now }
{
    lines
        .iter()
        .all(|line| takes_premises(&line.rule, line.premises.len()))
}

/// Whether the rule is printed with so many premises.
fn takes_premises(rule: &Rule, count: usize) -> bool
    ensures { IsTrue result → TakesPremises rule.now count }
{
    if count == 0 {
        return takes_none(rule);
    }
    if count == 1 {
        return takes_one(rule);
    }
    takes_more(rule, count)
}

/// Whether the rule is printed without premises.
fn takes_none(rule: &Rule) -> bool
    ensures { IsTrue result → TakesPremises rule.now 0 }
{
    match rule {
        Rule::Hyp(_) | Rule::Negated | Rule::Inst { .. } | Rule::Branch | Rule::Refl => true,
        Rule::Apart | Rule::Cong | Rule::Table(_) => true,
        Rule::Combine { factors, .. } => factors.is_empty(),
        Rule::Ideal { factors, .. } => factors.is_empty(),
        _ => false,
    }
}

/// Whether the rule is printed with one premise.
fn takes_one(rule: &Rule) -> bool
    ensures { IsTrue result → TakesPremises rule.now 1 }
{
    match rule {
        Rule::Sym | Rule::Eq | Rule::Back | Rule::Truth | Rule::Untruth => true,
        Rule::Read | Rule::Write | Rule::Line | Rule::Poly | Rule::Equal => true,
        Rule::Apart | Rule::Clash | Rule::Cong | Rule::Table(_) => true,
        Rule::Combine { factors, .. } => factors.len() == 1,
        Rule::Ideal { factors, .. } => factors.len() == 1,
        _ => false,
    }
}

/// Whether the rule is printed with so many premises, two or more.
fn takes_more(rule: &Rule, count: usize) -> bool
    ensures { IsTrue result → TakesPremises rule.now count }
{
    match rule {
        Rule::Trans | Rule::Pinch | Rule::Strict | Rule::Clash => count == 2,
        Rule::Apart => count == 3,
        Rule::Cong | Rule::Table(_) => true,
        Rule::Combine { factors, .. } => count == factors.len(),
        Rule::Ideal { factors, .. } => count == factors.len(),
        _ => false,
    }
}
