//! Does one piece of work of a given size and times it, for a script. The words are `chain SIZE JOBS`, a proof of so many
//! lines checked by so many jobs (with 0 jobs the checker of one thread does it), `tree SIZE JOBS`, one of so many pairs of
//! branches, `tables FILE SIZE`, one of so many `table` lines for the file's first goal, which name its last hypothesis, or `linear FILE`,
//! `poly FILE` or `normal FILE`: the readings of the left side of the conclusion of the file's first goal, and the normal form of the
//! last by the differences of the sides of the hypotheses, or `form_pairs FILE` or `poly_pairs FILE`: how many hypotheses
//! have sides whose readings have a difference, all read in one pass. The microseconds that the work took are written to standard error.
#![tactic(auto)]

ghost use Rattle.std.specs.Prelude.{IfOk};
ghost use Rattle.grind_proof_kernel.specs.Typing.{HasTerms};

mod chains;
mod pairs;
mod readings;
mod tables;
mod trees;

use chains::chain;
use grind_outside::{FileShelf, List, Memory, Shelf};
use grind_par_check::check_parallel;
use grind_proof_kernel::{Proof, Verdict, check};
use grind_schemes::{Goal, Lemmas};
use grind_theory::Theory;
use grind_theory_files::theory_of;
use pairs::{form_pairs, poly_pairs};
use readings::{are_nonzero, basis_of, left_side, parts_of, rest_of, sides_of, terms_of};
use std::alloc::Global;
use std::env;
use std::process::ExitCode;
use std::rt::{Clock, Env, Files};
use std::thread::Threads;
use std::time::Instant;
use tables::tables;
use trees::tree;

/// The theory whose goal the chains are of: term 3 is `f(a)`, and term 4 the conclusion.
const THEORY: &[u8] = b"sort S. fun f(S): S. goal g (a: S): |- f(a) = f(a).";

/// No chain has more lines.
const MOST: u32 = 4_000_000;

/// No proof has more pairs of branches, or `table` lines.
const MOST_PAIRS: u32 = 1_000_000;

/// A theory file has at most so many bytes.
const LONGEST: u64 = 4_194_304;

/// How terms are read.
#[derive(Clone, Copy)]
enum ReadAs {
    /// As a linear form.
    Linear,
    /// As a polynomial.
    Polynomial,
    /// As the normal form of one.
    Normal,
    /// Many, as linear forms, for their differences.
    FormPairs,
    /// Many, as polynomials, for their differences.
    PolyPairs,
}

/// What the words ask for.
#[derive(Drop)]
enum Work {
    /// A chain of so many lines is checked by so many jobs.
    Chain { size: u32, jobs: u32 },
    /// A proof of so many pairs of branches is checked by so many jobs.
    Tree { size: u32, jobs: u32 },
    /// A proof of so many `table` lines, for the first goal of the file, is checked.
    Tables { name: String, size: u32 },
    /// A term of the file is read.
    Read { reading: ReadAs, name: String },
}

/// What came of it: how much was made, where something was, and how many microseconds it took.
#[derive(Clone, Copy)]
struct Outcome {
    /// 1 for a typed proof; the parts of a form, or the terms of a polynomial.
    count: Option<usize>,
    /// The time, or 0 where the clock could not be read.
    micros: u128,
}

fn main(rt: HostRuntime) -> ExitCode {
    let Ok(Some(work)) = work_of(&rt) else {
        return ExitCode::from(3);
    };
    let outcome = match done(&rt, &work) {
        Ok(outcome) => outcome,
        Err(Memory) => return ExitCode::from(6),
    };
    let written = match outcome.count {
        Some(count) => println!(rt; "made {count}"),
        None => println!(rt; "made nothing"),
    };
    if written.is_err() {
        return ExitCode::from(5);
    }
    match eprintln!(rt; "{}", outcome.micros) {
        Ok(()) => ExitCode::from(0),
        Err(_) => ExitCode::from(5),
    }
}

/// The work that the words name.
fn work_of(rt: &(impl Env + AllocGlobal)) -> std::io::Result<Option<Work>> {
    let mut words = Vec::new(rt.alloc());
    for word in env::args(rt)?.skip(1) {
        words.push(word)?;
    }
    match words.as_slice() {
        [family, name, size] if family.as_str() == "tables" => match size.parse::<u32>() {
            Ok(size) => Ok(Some(Work::Tables {
                name: name.clone()?,
                size,
            })),
            Err(_) => Ok(None),
        },
        [family, size, jobs] => Ok(proof_of(family.as_str(), size.as_str(), jobs.as_str())),
        [family, name] => match reading_of(family.as_str()) {
            Some(reading) => Ok(Some(Work::Read {
                reading,
                name: name.clone()?,
            })),
            None => Ok(None),
        },
        _ => Ok(None),
    }
}

/// The proof that the words name.
fn proof_of(family: &str, size: &str, jobs: &str) -> Option<Work> {
    let Ok(size) = size.parse::<u32>() else {
        return None;
    };
    let Ok(jobs) = jobs.parse::<u32>() else {
        return None;
    };
    match family {
        "chain" => Some(Work::Chain { size, jobs }),
        "tree" => Some(Work::Tree { size, jobs }),
        _ => None,
    }
}

/// The reading of that name.
fn reading_of(word: &str) -> Option<ReadAs> {
    match word {
        "linear" => Some(ReadAs::Linear),
        "poly" => Some(ReadAs::Polynomial),
        "normal" => Some(ReadAs::Normal),
        "form_pairs" => Some(ReadAs::FormPairs),
        "poly_pairs" => Some(ReadAs::PolyPairs),
        _ => None,
    }
}

/// Does the work.
fn done<R: Threads + Sync + Clock + Files + AllocGlobal>(
    rt: &R,
    work: &Work,
) -> Result<Outcome, Memory> {
    match work {
        Work::Chain { size, jobs } => checked(rt, false, *size, *jobs),
        Work::Tree { size, jobs } => checked(rt, true, *size, *jobs),
        Work::Tables { name, size } => tabled(rt, name.as_str(), *size),
        Work::Read { reading, name } => read(rt, *reading, name.as_str()),
    }
}

/// Makes a chain of so many lines, or a tree of so many pairs, and checks it.
fn checked<R: Threads + Sync + Clock + AllocGlobal>(
    rt: &R,
    is_tree: bool,
    size: u32,
    jobs: u32,
) -> Result<Outcome, Memory> {
    let alloc = rt.alloc();
    let Ok(theory) = theory_of(alloc, THEORY) else {
        return Err(Memory);
    };
    let Some(goal) = theory.goals.as_slice().first() else {
        return Err(Memory);
    };
    let proof = made(alloc, goal, is_tree, size)?;
    let start = Instant::now(rt);
    let verdict = judged(rt, &theory.lemmas, goal, &proof, jobs)?;
    let micros = since(rt, start);
    let count = match verdict {
        Verdict::Typed => Some(1),
        _ => None,
    };
    Ok(Outcome { count, micros })
}

/// The chain or the tree of that size.
fn made(alloc: Global, goal: &Goal, is_tree: bool, size: u32) -> Result<Proof, Memory>
    ensures { IfOk result (HasTerms goal.now) }
{
    if is_tree {
        let proof = tree(alloc, goal, size.min(MOST_PAIRS))?;
        return Ok(proof);
    }
    let proof = chain(alloc, goal, size.min(MOST))?;
    Ok(proof)
}

/// Makes a proof of so many `table` lines for the file's first goal, and checks it.
fn tabled<R: Clock + Files + AllocGlobal>(
    rt: &R,
    name: &str,
    size: u32,
) -> Result<Outcome, Memory> {
    let alloc = rt.alloc();
    let Some(theory) = theory_in(rt, alloc, name) else {
        return Err(Memory);
    };
    let Some(goal) = theory.goals.as_slice().first() else {
        return Err(Memory);
    };
    let Some(sides) = sides_of(goal.terms(), goal.show()) else {
        return Err(Memory);
    };
    let proof = tables(alloc, goal, sides.left, size.min(MOST_PAIRS))?;
    let start = Instant::now(rt);
    let verdict = check(alloc, &theory.lemmas, goal, &proof)?;
    let micros = since(rt, start);
    let count = match verdict {
        Verdict::Typed => Some(1),
        _ => None,
    };
    Ok(Outcome { count, micros })
}

/// The microseconds since then.
fn since(rt: &impl Clock, start: std::io::Result<Instant>) -> u128 {
    match start {
        Ok(start) => match start.elapsed(rt) {
            Ok(spent) => spent.as_micros(),
            Err(_) => 0,
        },
        Err(_) => 0,
    }
}

/// What the checker says of the proof, with so many jobs.
fn judged<R: Threads + Sync + AllocGlobal>(
    rt: &R,
    lemmas: &Lemmas,
    goal: &Goal,
    proof: &Proof,
    jobs: u32,
) -> Result<Verdict, Memory>
    requires { HasTerms goal.now proof.now }
{
    let alloc = rt.alloc();
    if jobs == 0 {
        return check(alloc, lemmas, goal, proof);
    }
    check_parallel(rt, alloc, lemmas, goal, proof, jobs)
}

/// Reads a term of the file's first goal.
fn read<R: Clock + Files + AllocGlobal>(
    rt: &R,
    reading: ReadAs,
    name: &str,
) -> Result<Outcome, Memory> {
    let alloc = rt.alloc();
    let Some(theory) = theory_in(rt, alloc, name) else {
        return Err(Memory);
    };
    let Some(goal) = theory.goals.as_slice().first() else {
        return Err(Memory);
    };
    if let ReadAs::Normal = reading {
        return reduced(rt, alloc, goal);
    }
    let start = Instant::now(rt);
    let count = counted(alloc, goal, reading)?;
    Ok(Outcome {
        count,
        micros: since(rt, start),
    })
}

/// How much a reading of the goal's terms makes.
fn counted(alloc: Global, goal: &Goal, reading: ReadAs) -> Result<Option<usize>, Memory> {
    match reading {
        ReadAs::Linear => parts_of(alloc, goal),
        ReadAs::Polynomial => terms_of(alloc, goal),
        ReadAs::Normal => Ok(None),
        ReadAs::FormPairs => form_pairs(alloc, goal),
        ReadAs::PolyPairs => poly_pairs(alloc, goal),
    }
}

/// Reduces the polynomial of the conclusion's left side.
fn reduced(rt: &impl Clock, alloc: Global, goal: &Goal) -> Result<Outcome, Memory> {
    let basis = basis_of(alloc, goal)?;
    let nothing = Outcome {
        count: None,
        micros: 0,
    };
    let Some(poly) = left_side(alloc, goal)? else {
        return Ok(nothing);
    };
    if !are_nonzero(&basis) {
        return Ok(nothing);
    }
    let start = Instant::now(rt);
    let count = rest_of(alloc, &poly, &basis)?;
    Ok(Outcome {
        count,
        micros: since(rt, start),
    })
}

/// The theory that the file is.
fn theory_in(rt: &impl Files, alloc: Global, name: &str) -> Option<Theory> {
    let mut shelf = FileShelf::new(rt);
    let Ok(bytes) = shelf.read(alloc, name, LONGEST) else {
        return None;
    };
    match theory_of(alloc, bytes.as_slice()) {
        Ok(theory) => Some(theory),
        Err(_) => None,
    }
}
