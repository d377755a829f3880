//! The check of a proof, its lines by several threads.
ghost use Rattle.std.specs.Prelude.{◌≡◌, ◌≤◌, ◌<◌, ◌↔◌, IsTrue, IfOk, length};
ghost use Rattle.grind_proof_kernel.specs.Typing.{HasTerms, TypedLine};
ghost use Rattle.grind_proof_kernel.specs.Judgement.{IsRight};
ghost use Rattle.grind_par_check.specs.Laws.{OneVerdict};
ghost use Rattle.grind_par_check.specs.Lines.{BeginsWithTerms};

use crate::judge::{Judge, first_bad};
use grind_outside::Memory;
use grind_proof_kernel::branches::first_bad_branch;
use grind_proof_kernel::{Proof, Verdict, check_line};
use grind_schemes::{Goal, Lemmas};
use std::alloc::Global;
use std::thread::Threads;

#[tactic(auto, using(crate::proofs::LineLemmas::begins_with_terms))]
/// Whether the proof is typed for this goal, with these theorems, and else the first bad branch or, where no branch
/// is bad, the first bad line. The lines are judged by so many jobs, and the answer is the same for each number of them.
///
/// # Errors
/// `Memory` if out of memory.
pub fn check_parallel(
    rt: &(impl Threads + Sync),
    alloc: Global,
    lemmas: &Lemmas,
    goal: &Goal,
    proof: &Proof,
    jobs: u32,
) -> Result<Verdict, Memory>
    requires terms { HasTerms goal.now proof.now }
    requires jobs { 1 ≤ jobs }
    ensures { IfOk result (IsRight lemmas.now goal.now proof.now) }
{
    let bad = first_bad_branch(alloc, proof)?;
    if let Some(first) = bad {
        return Ok(Verdict::BadBranch { first });
    }
    let judge = LineJudge {
        alloc,
        lemmas,
        goal,
        proof,
    };
    match first_bad(rt, &judge, proof.lines.len() as u32, jobs)? {
        Some(first) => Ok(Verdict::BadLine { first }),
        None => Ok(Verdict::Typed),
    }
}

#[tactic(auto, using(crate::proofs::VerdictLemmas::one_verdict))]
/// A proof has one right verdict.
pub fn one_verdict()
    ensures { OneVerdict }
{}

/// The lines of a proof: item `i` is true where line `i` is typed.
#[derive(Drop)]
struct LineJudge<'a> {
    alloc: Global,
    lemmas: &'a Lemmas,
    goal: &'a Goal,
    proof: &'a Proof,
    ghost begins: { BeginsWithTerms goal.now proof.now },
}

impl<'a> Judge for LineJudge<'a> {
    ghost count = { λ it. length it.proof.now.lines };

    ghost holds = { λ it i. TypedLine it.lemmas.now it.goal.now it.proof.now i };

    #[tactic(auto, using(crate::proofs::LineLemmas::has_terms))]
    fn judge(&self, i: u32) -> Result<bool, Memory> {
        check_line(self.alloc, self.lemmas, self.goal, self.proof, i)
    }
}
