//! Asks an agent once and times it, for a script. The words are `truth FILE`, the next consequence where every node of
//! the file's first goal, all of them formulas, is known to hold, but `False`, known to fail; `match FILE`, the matches
//! of the first theorem where each node of that goal is in a class of its own; or `joined FILE`, the same where the sides
//! of each hypothesis that is an equation are in one class. The microseconds that the call took are written to standard error.
#![tactic(auto)]

mod scenes;

use grind_outside::{FileShelf, Memory, Shelf};
use grind_scenes::{all_alone, are_marked_formulas, first_matches, next_step, zeros};
use grind_schemes::Lemmas;
use grind_term_graph::{NodeId, TermTable};
use grind_theory::Theory;
use grind_theory_files::theory_of;
use grind_truth_prop::TruthStep;
use scenes::{classes_of, known_of};
use std::alloc::Global;
use std::env;
use std::process::ExitCode;
use std::rt::{Clock, Env, Files};
use std::time::Instant;

/// A theory file has at most so many bytes.
const LONGEST: u64 = 4_194_304;

/// What is asked.
#[derive(Clone, Copy)]
enum Question {
    /// The next consequence.
    Truth,
    /// The matches over classes of one node each.
    Match,
    /// The matches where the sides of hypotheses are together.
    Joined,
}

/// What the words ask for.
#[derive(Drop)]
struct Work {
    question: Question,
    name: String,
}

/// What came of it.
#[derive(Clone, Copy)]
struct Outcome {
    answer: Answer,
    /// The time, or 0 where the clock could not be read.
    micros: u128,
}

/// The agent's answer, or nothing where the goal or the theory is not of the kind that was asked for.
#[derive(Clone, Copy)]
enum Answer {
    Step(&'static str),
    Matches(usize),
    Nothing,
}

fn main(rt: HostRuntime) -> ExitCode {
    let Ok(Some(work)) = work_of(&rt) else {
        return ExitCode::from(3);
    };
    let outcome = match done(&rt, &work) {
        Ok(outcome) => outcome,
        Err(Memory) => return ExitCode::from(6),
    };
    let written = match outcome.answer {
        Answer::Step(word) => println!(rt; "{word}"),
        Answer::Matches(count) => println!(rt; "{count}"),
        Answer::Nothing => println!(rt; "nothing"),
    };
    if written.is_err() {
        return ExitCode::from(5);
    }
    match eprintln!(rt; "{}", outcome.micros) {
        Ok(()) => ExitCode::from(0),
        Err(_) => ExitCode::from(5),
    }
}

/// The work that the words name.
fn work_of(rt: &(impl Env + AllocGlobal)) -> std::io::Result<Option<Work>> {
    let mut words = Vec::new(rt.alloc());
    for word in env::args(rt)?.skip(1) {
        words.push(word)?;
    }
    match words.as_slice() {
        [word, name] => match question_of(word.as_str()) {
            Some(question) => Ok(Some(Work {
                question,
                name: name.clone()?,
            })),
            None => Ok(None),
        },
        _ => Ok(None),
    }
}

/// The question of that name.
fn question_of(word: &str) -> Option<Question> {
    match word {
        "truth" => Some(Question::Truth),
        "match" => Some(Question::Match),
        "joined" => Some(Question::Joined),
        _ => None,
    }
}

/// Does the work.
fn done<R: Clock + Files + AllocGlobal>(rt: &R, work: &Work) -> Result<Outcome, Memory> {
    let alloc = rt.alloc();
    let Some(theory) = theory_in(rt, alloc, work.name.as_str()) else {
        return Err(Memory);
    };
    let Some(goal) = theory.goals.as_slice().first() else {
        return Err(Memory);
    };
    match work.question {
        Question::Truth => stepped(rt, goal.terms()),
        Question::Match => matched(rt, &theory.lemmas, goal.terms(), goal.hyps(), false),
        Question::Joined => matched(rt, &theory.lemmas, goal.terms(), goal.hyps(), true),
    }
}

/// Asks for the next consequence.
fn stepped<R: Clock + AllocGlobal>(rt: &R, terms: &TermTable) -> Result<Outcome, Memory> {
    let alloc = rt.alloc();
    let known = known_of(alloc, terms)?;
    let classes = all_alone(alloc, &known.terms)?;
    if !are_marked_formulas(&known) {
        return Ok(nothing());
    }
    let start = Instant::now(rt);
    let step = next_step(alloc, &known, &classes)?;
    let micros = since(rt, start);
    Ok(Outcome {
        answer: Answer::Step(word_of(&step)),
        micros,
    })
}

/// Asks for the matches of the first theorem.
fn matched<R: Clock + AllocGlobal>(
    rt: &R,
    lemmas: &Lemmas,
    terms: &TermTable,
    hyps: &[NodeId],
    joins: bool,
) -> Result<Outcome, Memory> {
    let alloc = rt.alloc();
    let classes = classes_of(alloc, terms, hyps, joins)?;
    let generations = zeros(alloc, terms.len())?;
    if lemmas.theorems.is_empty() {
        return Ok(nothing());
    }
    let start = Instant::now(rt);
    let list = first_matches(alloc, terms, &classes, &generations, lemmas)?;
    let micros = since(rt, start);
    Ok(Outcome {
        answer: Answer::Matches(list.len()),
        micros,
    })
}

/// The outcome where nothing was asked.
fn nothing() -> Outcome {
    Outcome {
        answer: Answer::Nothing,
        micros: 0,
    }
}

/// The word for a step.
fn word_of(step: &TruthStep) -> &'static str {
    match step {
        TruthStep::Classed { .. } => "classed",
        TruthStep::Sides { .. } => "sides",
        TruthStep::Joined { .. } => "joined",
        TruthStep::Parted { .. } => "parted",
        TruthStep::Settle { .. } => "settle",
        TruthStep::Conflict { .. } => "conflict",
        TruthStep::Wants(_) => "wants",
        TruthStep::Rest => "rest",
    }
}

/// The microseconds since then.
fn since(rt: &impl Clock, start: std::io::Result<Instant>) -> u128 {
    match start {
        Ok(start) => match start.elapsed(rt) {
            Ok(spent) => spent.as_micros(),
            Err(_) => 0,
        },
        Err(_) => 0,
    }
}

/// The theory that the file is.
fn theory_in(rt: &impl Files, alloc: Global, name: &str) -> Option<Theory> {
    let mut shelf = FileShelf::new(rt);
    let Ok(bytes) = shelf.read(alloc, name, LONGEST) else {
        return None;
    };
    match theory_of(alloc, bytes.as_slice()) {
        Ok(theory) => Some(theory),
        Err(_) => None,
    }
}
