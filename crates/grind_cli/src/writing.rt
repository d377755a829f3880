//! The report of a theory, written goal by goal.
ghost use Rattle.std.specs.Prelude.{◌≡◌, ◌≤◌, ◌<◌, ◌^◌, ◌↔◌, ℕ, List as Sequence, ◌∷◌, length, IfOk, OnErr, IsTrue};
ghost use Rattle.grind_outside.specs.Outside.{CountsFault, OnPutFailed, UnlessPutFailed};
ghost use Rattle.grind_report.specs.Report.{Block, Report};
ghost use Rattle.grind_answers.specs.Answers.{AreClosed, WritesReport, WritesPart};
ghost use Rattle.grind_theory.specs.Theories.{AreDeclared, IsGoalDeclared};
ghost use Rattle.grind_answers.specs.Written.{AwaitsGoals, WritesBlock, BeginsBlock, SpellsBlock, WritesBlocks, WritesSomeBlocks};

use crate::solve::solve_goal;
use grind_answers::{is_closed, write_end, write_header};
use grind_outside::{List, Memory, Sink, SinkRefusal, write_whole};
use grind_report::report::render_block;
use grind_schemes::{Goal, Lemmas};
use grind_signature::signature::Signature;
use std::alloc::Global;

/// What a report is of.
#[derive(Drop)]
struct Contents<'a> {
    signature: &'a Signature,
    lemmas: &'a Lemmas,
    goals: &'a [Goal],
}

/// Solves the goals and writes their report: the header before the first goal is solved, and each
/// block as soon as its goal is. Says whether every goal is closed.
///
/// # Errors
///
/// The refusal of `out`, or want of memory. Some first bytes of the report were then written.
pub fn write_report<K: Sink>(
    alloc: Global,
    signature: &Signature,
    lemmas: &Lemmas,
    goals: &[Goal],
    out: &mut K,
) -> Result<bool, SinkRefusal>
    requires declared { AreDeclared signature.now goals.now }
    requires few { length goals.now < 2 ^ 32 }
    ensures ok { IfOk result (λ closed. (bytes : Sequence ℕ) × (report : Report)
        × WritesReport signature.now lemmas.now goals.now (K.written out.old) (K.written out.new) bytes report
        × (IsTrue closed ↔ AreClosed report.blocks)) }
    ensures err { OnErr result
        (WritesPart signature.now lemmas.now goals.now (K.written out.old) (K.written out.new)) }

    ensures failed { OnPutFailed result (CountsFault (K.faults out.old) (K.faults out.new)) }
    ensures quiet { UnlessPutFailed result (K.faults out.new ≡ K.faults out.old) }
    ensures never_falls { K.faults out.old ≤ K.faults out.new }
{
    if let Err(refusal) = write_header(alloc, out) {
        return Err(refusal);
    }
    let contents = Contents {
        signature,
        lemmas,
        goals,
    };
    let closed = match write_blocks(alloc, &contents, out) {
        Ok(closed) => closed,
        Err(refusal) => return Err(refusal),
    };
    if let Err(refusal) = write_end(alloc, goals.len() as u32, out) {
        return Err(refusal);
    }
    Ok(closed)
}

/// Writes a block for each goal, after the header. Says whether every goal is closed.
fn write_blocks<K: Sink>(
    alloc: Global,
    contents: &Contents<'_>,
    out: &mut K,
) -> Result<bool, SinkRefusal>
    requires declared { AreDeclared contents.now.signature.now contents.now.goals.now }
    requires header { AwaitsGoals contents.now.signature.now contents.now.lemmas.now contents.now.goals.now
        contents.now.goals.now (K.written out.old) }
    ensures ok { IfOk result (λ closed. (blocks : Sequence Block)
        × WritesBlocks contents.now.signature.now contents.now.lemmas.now contents.now.goals.now
        (K.written out.old) (K.written out.new) blocks
        × (IsTrue closed ↔ AreClosed blocks)) }
    ensures err { OnErr result
        (WritesSomeBlocks contents.now.signature.now contents.now.lemmas.now contents.now.goals.now
        (K.written out.old) (K.written out.new)) }

    ensures failed { OnPutFailed result (CountsFault (K.faults out.old) (K.faults out.new)) }
    ensures quiet { UnlessPutFailed result (K.faults out.new ≡ K.faults out.old) }
    ensures never_falls { K.faults out.old ≤ K.faults out.new }
{
    let mut rest = contents.goals;
    let mut closed = true;
    while let Some((goal, tail)) = rest.split_first() {
        match write_block(alloc, contents, goal, tail, out) {
            Ok(this) => closed = closed && this,
            Err(refusal) => return Err(refusal),
        }
        rest = tail;
    }
    Ok(closed)
}

/// Solves a goal and writes its block, before any goal of the tail is solved. Says whether it is
/// closed.
fn write_block<K: Sink>(
    alloc: Global,
    contents: &Contents<'_>,
    goal: &Goal,
    tail: &[Goal],
    out: &mut K,
) -> Result<bool, SinkRefusal>
    requires declared { IsGoalDeclared contents.now.signature.now goal.now }
    requires before { AwaitsGoals contents.now.signature.now contents.now.lemmas.now contents.now.goals.now
        (goal.now ∷ tail.now) (K.written out.old) }
    ensures ok { IfOk result (λ closed. (block : Block)
        × WritesBlock contents.now.signature.now contents.now.lemmas.now goal.now
        (K.written out.old) (K.written out.new) closed block) }
    ensures err { OnErr result
        (BeginsBlock contents.now.signature.now contents.now.lemmas.now goal.now (K.written out.old) (K.written out.new)) }

    ensures failed { OnPutFailed result (CountsFault (K.faults out.old) (K.faults out.new)) }
    ensures quiet { UnlessPutFailed result (K.faults out.new ≡ K.faults out.old) }
    ensures never_falls { K.faults out.old ≤ K.faults out.new }
{
    let Ok((closed, bytes)) = block_of(alloc, contents, goal, tail, out) else {
        return Err(SinkRefusal::Memory);
    };
    if let Err(refusal) = write_whole(out, bytes.as_slice()) {
        return Err(refusal);
    }
    Ok(closed)
}

/// Solves a goal, once the header and the blocks of the goals before it stand on `out`. Says
/// whether it is closed, and gives the bytes of its block.
fn block_of<K: Sink>(
    alloc: Global,
    contents: &Contents<'_>,
    goal: &Goal,
    _tail: &[Goal],
    _out: &K,
) -> Result<(bool, List<u8>), Memory>
    requires declared { IsGoalDeclared contents.now.signature.now goal.now }
    requires before { AwaitsGoals contents.now.signature.now contents.now.lemmas.now contents.now.goals.now
        (goal.now ∷ _tail.now) (K.written _out.now) }
    ensures { IfOk result (λ made. (block : Block)
        × SpellsBlock contents.now.signature.now contents.now.lemmas.now goal.now made.0 made.1 block) }
{
    let outcome = solve_goal(alloc, contents.lemmas, goal)?;
    let bytes = render_block(alloc, contents.signature, goal, &outcome)?;
    let closed = is_closed(&outcome);
    Ok((closed, bytes))
}
