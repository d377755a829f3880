//! Copies of claims, rules and lines.
ghost use Rattle.std.specs.Prelude.{◌≡◌, IfOk};
ghost use Rattle.grind_claims.specs.Copies.{IsArithmetic};

use crate::claim::Claim;
use crate::proof::{Line, Rule};
use grind_outside::{List, Memory};
use grind_polynomials::Poly;
use grind_term_graph::NodeId;
use std::alloc::Global;

impl Claim {
    /// The same claim once more.
    ///
    /// # Errors
    /// `Memory` where there is none.
    pub fn copy(&self, alloc: Global) -> Result<Claim, Memory>
        ensures { IfOk result (λ claim. claim ≡ self.now) }
    {
        match self {
            Claim::Holds(node) => Ok(Claim::Holds(*node)),
            Claim::Fails(node) => Ok(Claim::Fails(*node)),
            Claim::Same(left, right) => Ok(Claim::Same(*left, *right)),
            Claim::Differ(left, right) => Ok(Claim::Differ(*left, *right)),
            Claim::AtMost(form) => {
                let form = form.copy(alloc)?;
                Ok(Claim::AtMost(form))
            }
            Claim::Zero(poly) => {
                let poly = poly.copy(alloc)?;
                Ok(Claim::Zero(poly))
            }
            Claim::Absurd => Ok(Claim::Absurd),
        }
    }
}

impl Rule {
    /// The same rule once more.
    ///
    /// # Errors
    /// `Memory` where there is none.
    pub fn copy(&self, alloc: Global) -> Result<Rule, Memory>
        ensures { IfOk result (λ rule. rule ≡ self.now) }
    {
        match self {
            Rule::Hyp(i) => Ok(Rule::Hyp(*i)),
            Rule::Negated => Ok(Rule::Negated),
            Rule::Inst { theorem, subst } => {
                let subst = nodes_copied(alloc, subst.as_slice())?;
                Ok(Rule::Inst {
                    theorem: *theorem,
                    subst,
                })
            }
            Rule::Branch => Ok(Rule::Branch),
            Rule::Refl => Ok(Rule::Refl),
            Rule::Sym => Ok(Rule::Sym),
            Rule::Trans => Ok(Rule::Trans),
            Rule::Cong => Ok(Rule::Cong),
            Rule::Eq => Ok(Rule::Eq),
            Rule::Back => Ok(Rule::Back),
            Rule::Truth => Ok(Rule::Truth),
            Rule::Untruth => Ok(Rule::Untruth),
            Rule::Table(free) => {
                let free = nodes_copied(alloc, free.as_slice())?;
                Ok(Rule::Table(free))
            }
            _ => arithmetic_copied(alloc, self),
        }
    }
}

/// The same of a rule over forms or polynomials, or `clash`.
fn arithmetic_copied(alloc: Global, rule: &Rule) -> Result<Rule, Memory>
    requires { IsArithmetic rule.now }
    ensures { IfOk result (λ copy. copy ≡ rule.now) }
{
    match rule {
        Rule::Read => Ok(Rule::Read),
        Rule::Write => Ok(Rule::Write),
        Rule::Line => Ok(Rule::Line),
        Rule::Poly => Ok(Rule::Poly),
        Rule::Combine { divisor, factors } => {
            let factors = numbers_copied(alloc, factors.as_slice())?;
            Ok(Rule::Combine {
                divisor: *divisor,
                factors,
            })
        }
        Rule::Pinch => Ok(Rule::Pinch),
        Rule::Strict => Ok(Rule::Strict),
        Rule::Apart => Ok(Rule::Apart),
        Rule::Ideal { divisor, factors } => {
            let factors = polys_copied(alloc, factors.as_slice())?;
            Ok(Rule::Ideal {
                divisor: *divisor,
                factors,
            })
        }
        Rule::Equal => Ok(Rule::Equal),
        _ => Ok(Rule::Clash),
    }
}

impl Line {
    /// The same line once more.
    ///
    /// # Errors
    /// `Memory` where there is none.
    pub fn copy(&self, alloc: Global) -> Result<Line, Memory>
        ensures { IfOk result (λ line. line ≡ self.now) }
    {
        let rule = self.rule.copy(alloc)?;
        let claim = self.claim.copy(alloc)?;
        let mut premises = List::new(alloc);
        premises.extend(self.premises.as_slice())?;
        Ok(Line {
            branch: self.branch,
            rule,
            premises,
            claim,
        })
    }
}

fn nodes_copied(alloc: Global, nodes: &[NodeId]) -> Result<List<NodeId>, Memory>
    ensures { IfOk result (λ copy. copy ≡ nodes.now) }
{
    let mut copy = List::new(alloc);
    copy.extend(nodes)?;
    Ok(copy)
}

fn numbers_copied(alloc: Global, numbers: &[i128]) -> Result<List<i128>, Memory>
    ensures { IfOk result (λ copy. copy ≡ numbers.now) }
{
    let mut copy = List::new(alloc);
    copy.extend(numbers)?;
    Ok(copy)
}

fn polys_copied(alloc: Global, polys: &[Poly]) -> Result<List<Poly>, Memory>
    ensures { IfOk result (λ copy. copy ≡ polys.now) }
{
    let mut copy = List::new(alloc);
    let mut rest = polys;
    while let Some((poly, tail)) = rest.split_first() {
        let one = poly.copy(alloc)?;
        copy.push(one)?;
        rest = tail;
    }
    Ok(copy)
}
