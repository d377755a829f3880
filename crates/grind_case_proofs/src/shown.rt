//! What is shown of a proof that is given as text.
use crate::blocks::block_of;
use crate::proofs::{is_typed, verdict_of};
use grind_cases::case::Case;
use grind_cases::texts::{put, show_part};
use grind_cases::unfollowed::Unfollowed;
use grind_outside::{List, Memory};
use grind_proof_kernel::Verdict;
use std::alloc::Global;
use std::thread::Threads;

/// Shows what the checker says of the proof of the first goal.
pub fn show_verdict<R: Threads + Sync>(
    rt: &R,
    alloc: Global,
    case: &Case,
    jobs: &str,
    said: &mut List<u8>,
) -> Result<(), Unfollowed> {
    let verdict = verdict_of(rt, alloc, case, jobs)?;
    put_verdict(alloc, verdict, said)?;
    Ok(())
}

fn put_verdict(alloc: Global, verdict: Verdict, said: &mut List<u8>) -> Result<(), Memory> {
    match verdict {
        Verdict::Typed => put(said, "typed\n"),
        Verdict::BadBranch { first } => {
            let line = format!(in alloc; "branch {first} wrong\n")?;
            put(said, line.as_str())
        }
        Verdict::BadLine { first } => {
            let line = format!(in alloc; "line {first} untyped\n")?;
            put(said, line.as_str())
        }
    }
}

/// Shows whether the line is typed as the line of that number.
pub fn show_judgement(
    alloc: Global,
    case: &Case,
    number: u32,
    line: &str,
    said: &mut List<u8>,
) -> Result<(), Unfollowed> {
    let typed = is_typed(alloc, case, number, line)?;
    put_typed(typed, said)?;
    put(said, line)?;
    put(said, "\n")?;
    Ok(())
}

fn put_typed(typed: bool, said: &mut List<u8>) -> Result<(), Memory> {
    if typed {
        return put(said, "typed   ");
    }
    put(said, "untyped ")
}

/// Shows the block of a report that closes the first goal by the proof.
pub fn show_block(alloc: Global, case: &Case, said: &mut List<u8>) -> Result<(), Unfollowed> {
    let bytes = block_of(alloc, case)?;
    show_part(alloc, "block", &bytes, said)?;
    Ok(())
}
