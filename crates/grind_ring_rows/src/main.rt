//! Steps a ring solver on the equations of files, and writes each of its answers; the stored output says what must come.
//! The file `cases` names the cases, one a line: a theory file, how many normal forms may join, and how its first goal's
//! equations are taken. `apart` leaves the sides in their classes; `joined` joins the classes of each two terms that a
//! post says to be equal, as a board does; `zeros` takes the differences of the sides as polynomials that are 0, and joins
//! the classes of terms that are found equal.
//!
//! Posts are numbered from 0: the equations first, then what the answers make. A polynomial is written as its coefficients,
//! each with the nodes of its monomial.
#![tactic(auto)]

mod driving;
mod printing;
mod reading;

use driving::run;
use grind_outside::{List, Memory, Sink, StreamSink, write_whole};
use grind_theory::Theory;
use grind_theory_files::theory_of;
use reading::{Case, case_of, read};
use std::alloc::Global;
use std::process::ExitCode;
use std::rt::Files;

/// Why the program ends early.
#[derive(Clone, Copy)]
pub enum Trouble {
    /// The file could not be read, or is no text.
    Unread,
    /// The line is no case, or the file no theory with a goal.
    Malformed,
    /// The output could not be written.
    Unwritten,
    /// Out of memory.
    Memory,
}

impl From<Memory> for Trouble {
    fn from(_memory: Memory) -> Trouble {
        Trouble::Memory
    }
}

fn main(rt: HostRuntime) -> ExitCode {
    let mut out = StreamSink::new(rt.stdout());
    let index = match read(&rt, rt.alloc(), "cases") {
        Ok(index) => index,
        Err(trouble) => return ended(&rt, "cases", trouble),
    };
    for line in index.as_str().lines() {
        if let Err(trouble) = try_case(&rt, line, &mut out) {
            return ended(&rt, line, trouble);
        }
    }
    ExitCode::from(0)
}

/// Says what was wrong with the case of that line, and with which status the program ends.
fn ended(rt: &impl Eprint, line: &str, trouble: Trouble) -> ExitCode {
    let what = match trouble {
        Trouble::Unread => "not read, or no text",
        Trouble::Malformed => "malformed",
        Trouble::Unwritten => "the output was not written",
        Trouble::Memory => "out of memory",
    };
    match eprintln!(rt; "grind_ring_rows: {line}: {what}") {
        Ok(()) => ExitCode::from(2),
        Err(_) => ExitCode::from(3),
    }
}

/// Tries the case of that line, and writes what comes of it.
fn try_case<R: Files + AllocGlobal, K: Sink>(
    rt: &R,
    line: &str,
    out: &mut K,
) -> Result<(), Trouble> {
    let alloc = rt.alloc();
    let Some(case) = case_of(line) else {
        return Err(Trouble::Malformed);
    };
    let mut said = List::new(alloc);
    said.extend(b"== ")?;
    said.extend(line.as_bytes())?;
    said.extend(b"\n")?;
    answer(rt, &case, &mut said)?;
    match write_whole(out, said.as_slice()) {
        Ok(()) => Ok(()),
        Err(_) => Err(Trouble::Unwritten),
    }
}

/// Steps a solver on the case, and appends its answers to what was said.
fn answer<R: Files + AllocGlobal>(rt: &R, case: &Case, said: &mut List<u8>) -> Result<(), Trouble> {
    let alloc = rt.alloc();
    let text = read(rt, alloc, case.name)?;
    solve(alloc, case, text.as_str().as_bytes(), said)?;
    Ok(())
}

/// Steps a solver on the first goal of a theory file.
fn solve(alloc: Global, case: &Case, bytes: &[u8], said: &mut List<u8>) -> Result<(), Trouble> {
    if bytes.len() > 4_194_304 {
        return Err(Trouble::Malformed);
    }
    match theory_of(alloc, bytes) {
        Ok(theory) => solve_first(alloc, case, &theory, said),
        Err(_) => Err(Trouble::Malformed),
    }
}

/// Steps a solver on the first goal of a theory.
fn solve_first(
    alloc: Global,
    case: &Case,
    theory: &Theory,
    said: &mut List<u8>,
) -> Result<(), Trouble> {
    let Some(goal) = theory.goals.as_slice().first() else {
        return Err(Trouble::Malformed);
    };
    let lines = run(alloc, case, goal)?;
    said.extend(lines.as_slice())?;
    Ok(())
}
