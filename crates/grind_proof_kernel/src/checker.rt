//! The checker: which lines are typed, which proofs are, and one more line after a proof.
ghost use Rattle.std.specs.Prelude.{IsTrue, ◌↔◌, ◌<◌, ◌≡◌, ◌≤◌, ℕ, length, All, IfOk, OnOk, OnErr, MatchOption};
ghost use Rattle.grind_claims.specs.Claims.{IsFormed, AreClaimsAt, claims_of};
ghost use Rattle.grind_proof_kernel.specs.Typing.{HasTerms, IsTypedAs, TypedLine, LinesAllow, IsGoodBranch, literal_of, appended};
ghost use Rattle.grind_proof_kernel.specs.Judgement.{HasGoodBranches, IsFirstBadBranch, IsRight};

use crate::branches::{all_serve, first_bad_branch, literal_of};
use grind_claims::claim::is_formed;
use grind_claims::{Claim, Line, Proof};
use grind_outside::Memory;
use grind_rules::{Setting, rule_allows};
use grind_schemes::{Goal, Lemmas};
use std::alloc::Global;

/// What the checker says of a proof.
#[derive(Clone, Copy, Debug, PartialEq, Eq)]
pub enum Verdict {
    /// No branch is bad, and each line is typed.
    Typed,
    /// This branch is the first bad one. The root is 0.
    BadBranch {
        /// Its number.
        first: u32,
    },
    /// No branch is bad, and this line is the first that is not typed.
    BadLine {
        /// Its number, from 0.
        first: u32,
    },
}

/// Whether line `i` of the proof is typed for this goal, with these theorems.
///
/// # Errors
/// `Memory` if out of memory.
pub fn check_line(
    alloc: Global,
    lemmas: &Lemmas,
    goal: &Goal,
    proof: &Proof,
    i: u32,
) -> Result<bool, Memory>
    requires terms { HasTerms goal.now proof.now }
    requires line { i < length proof.now.lines }
    ensures { IfOk result (λ typed. IsTrue typed ↔ TypedLine lemmas.now goal.now proof.now i) }
{
    let branches = proof.branches.as_slice();
    let lines = proof.lines.as_slice();
    let line = &lines[i as usize];
    if !is_formed(&proof.terms, &line.claim)
        || line.branch as usize > branches.len()
        || !all_serve(branches, lines, i, line.branch, line.premises.as_slice())
    {
        return Ok(false);
    }
    let allowed = is_allowed(alloc, lemmas, goal, proof, line)?;
    Ok(allowed)
}

/// Whether the rule of a line of the proof allows what it claims. The claim is well formed, and the premises are lines.
fn is_allowed(
    alloc: Global,
    lemmas: &Lemmas,
    goal: &Goal,
    proof: &Proof,
    line: &Line,
) -> Result<bool, Memory>
    requires formed { IsFormed proof.now.terms.nodes line.now.claim }
    requires premises { All (λ p. p < length proof.now.lines) line.now.premises }
    ensures { IfOk result (λ yes. IsTrue yes ↔ LinesAllow lemmas.now goal.now proof.now.terms.nodes proof.now.lines
        (literal_of proof.now.branches line.now.branch) line.now.rule line.now.premises line.now.claim) }
{
    let setting = Setting {
        lemmas,
        goal,
        terms: &proof.terms,
        literal: literal_of(proof.branches.as_slice(), line.branch),
    };
    let claims = claims_at(alloc, proof.lines.as_slice(), line.premises.as_slice())?;
    let allowed = rule_allows(alloc, &setting, &line.rule, claims.as_slice(), &line.claim)?;
    Ok(allowed)
}

/// What these lines claim, one by one.
fn claims_at<'a>(
    alloc: Global,
    lines: &'a [Line],
    premises: &[u32],
) -> Result<Vec<&'a Claim>, Memory>
    requires { All (λ p. p < length lines.now) premises.now }
    ensures { IfOk result (λ claims. AreClaimsAt lines.now premises.now (claims_of claims.items)) }
{
    let mut claims: Vec<&'a Claim> = Vec::new(alloc);
    for premise in premises {
        claims.push(&lines[*premise as usize].claim)?;
    }
    Ok(claims)
}

/// Whether the proof is typed for this goal, with these theorems, and else the first bad branch or, where no branch
/// is bad, the first bad line.
///
/// # Errors
/// `Memory` if out of memory.
pub fn check(alloc: Global, lemmas: &Lemmas, goal: &Goal, proof: &Proof) -> Result<Verdict, Memory>
    requires { HasTerms goal.now proof.now }
    ensures { IfOk result (IsRight lemmas.now goal.now proof.now) }
{
    let bad = first_bad_branch(alloc, proof)?;
    if let Some(first) = bad {
        return Ok(Verdict::BadBranch { first });
    }
    for i in 0..proof.lines.len() as u32 {
        let typed = check_line(alloc, lemmas, goal, proof, i)?;
        if !typed {
            return Ok(Verdict::BadLine { first: i });
        }
    }
    Ok(Verdict::Typed)
}

/// Appends a line that is typed there to the proof, and answers its number.
///
/// # Errors
/// `Memory` if out of memory. The proof is then unchanged.
pub fn derive(
    _alloc: Global,
    lemmas: &Lemmas,
    goal: &Goal,
    proof: &mut Proof,
    line: Line,
) -> Result<u32, Memory>
    requires terms { HasTerms goal.now proof.old }
    requires typed { TypedLine lemmas.now goal.now (appended proof.old line) (length proof.old.lines) }
    ensures number { IfOk result (λ number. number ≡ length proof.old.lines) }
    ensures ok { OnOk result (proof.new ≡ appended proof.old line) }
    ensures err { OnErr result (proof.new ≡ proof.old) }
{
    let number = proof.lines.len() as u32;
    proof.lines.push(line)?;
    Ok(number)
}
