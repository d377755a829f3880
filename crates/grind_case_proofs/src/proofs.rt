//! Proofs that are given as text, and what the checker says of them.
ghost use Rattle.std.specs.Prelude.{◌≡◌, ◌-◌, ◌^◌, IfOk};
ghost use Rattle.grind_proof_kernel.specs.Typing.{HasTerms};
ghost use Rattle.grind_theory.specs.Theories.{AreDeclared};

use grind_cases::case::Case;
use grind_cases::texts::split;
use grind_cases::unfollowed::Unfollowed;
use grind_line_reader::made_proof::proof_of;
use grind_line_reader::spelled::{claim_from, line_of};
use grind_outside::List;
use grind_par_check::check_parallel;
use grind_proof_kernel::{Branch, Line, Proof, Verdict, check, check_line};
use grind_schemes::Goal;
use grind_theory::Theory;
use grind_theory_files::theory_of;
use std::alloc::Global;
use std::thread::Threads;

/// The theory of the first file.
///
/// # Errors
///
/// `Malformed` where there is no file, or it is no theory.
pub fn theory_in(alloc: Global, case: &Case) -> Result<Theory, Unfollowed>
    ensures { IfOk result (λ theory. AreDeclared theory.signature theory.goals) }
{
    let Some(file) = case.files.as_slice().first() else {
        return Err(Unfollowed::Malformed);
    };
    if file.bytes.len() > 4_194_304 {
        return Err(Unfollowed::Malformed);
    }
    let theory = theory_of(alloc, file.bytes.as_slice())?;
    Ok(theory)
}

/// The proof of the case over the terms of the goal, with another line of that number.
///
/// # Errors
///
/// `Malformed` where a line or a branch is not spelled.
pub fn proof_in(
    alloc: Global,
    case: &Case,
    goal: &Goal,
    number: usize,
    other: &str,
) -> Result<Proof, Unfollowed>
    ensures front { IfOk result (HasTerms goal.now) }
    ensures terms { IfOk result (λ proof. proof.terms ≡ record { nodes = goal.now.terms.nodes; limit = 2 ^ 32 - 1 }) }
{
    let branches = branches_in(alloc, case)?;
    let lines = lines_in(alloc, case, number, other)?;
    let proof = proof_of(alloc, goal, branches, lines)?;
    Ok(proof)
}

fn lines_in(
    alloc: Global,
    case: &Case,
    number: usize,
    other: &str,
) -> Result<List<Line>, Unfollowed> {
    let mut lines = List::new(alloc);
    for text in case.lines.as_slice() {
        let text = if lines.len() == number {
            other
        } else {
            text.as_str()
        };
        let Some(line) = line_of(alloc, text)? else {
            return Err(Unfollowed::Malformed);
        };
        lines.push(line)?;
    }
    Ok(lines)
}

fn branches_in(alloc: Global, case: &Case) -> Result<List<Branch>, Unfollowed> {
    let mut branches = List::new(alloc);
    for text in case.branches.as_slice() {
        let branch = branch_of(alloc, text.as_str())?;
        branches.push(branch)?;
    }
    Ok(branches)
}

/// The branch that a text spells: its parent, the line at which it begins, and what it assumes.
fn branch_of(alloc: Global, text: &str) -> Result<Branch, Unfollowed> {
    let (parent, rest) = split(text);
    let (after, claim) = split(rest);
    let (Ok(parent), Ok(after)) = (parent.parse::<u32>(), after.parse::<u32>()) else {
        return Err(Unfollowed::Malformed);
    };
    let Some(literal) = claim_from(alloc, claim)? else {
        return Err(Unfollowed::Malformed);
    };
    Ok(Branch {
        parent,
        after,
        literal,
    })
}

/// What the checker says of the proof of the first goal, on one thread, or by so many jobs where the text is their number.
///
/// # Errors
///
/// `Malformed` where the case has no such proof.
pub fn verdict_of<R: Threads + Sync>(
    rt: &R,
    alloc: Global,
    case: &Case,
    jobs: &str,
) -> Result<Verdict, Unfollowed> {
    let theory = theory_in(alloc, case)?;
    let Some(goal) = theory.goals.as_slice().first() else {
        return Err(Unfollowed::Malformed);
    };
    let proof = proof_in(alloc, case, goal, case.lines.len(), "")?;
    let verdict = match jobs.parse::<u32>() {
        Ok(jobs) if jobs >= 1 => check_parallel(rt, alloc, &theory.lemmas, goal, &proof, jobs)?,
        _ if jobs.is_empty() => check(alloc, &theory.lemmas, goal, &proof)?,
        _ => return Err(Unfollowed::Malformed),
    };
    Ok(verdict)
}

/// Whether the line is typed as the line of that number.
///
/// # Errors
///
/// `Malformed` where the case has no such proof.
pub fn is_typed(alloc: Global, case: &Case, number: u32, line: &str) -> Result<bool, Unfollowed> {
    let theory = theory_in(alloc, case)?;
    let Some(goal) = theory.goals.as_slice().first() else {
        return Err(Unfollowed::Malformed);
    };
    let proof = proof_in(alloc, case, goal, number as usize, line)?;
    if number as usize >= proof.lines.len() {
        return Err(Unfollowed::Malformed);
    }
    let typed = check_line(alloc, &theory.lemmas, goal, &proof, number)?;
    Ok(typed)
}
