//! The answer to a goal by congruence.
ghost use Rattle.std.specs.Prelude.{◌≡◌, All, IfOk};
ghost use Rattle.grind_case_split.specs.Congruences.{IsRightFor, IsDecided};
ghost use Rattle.grind_given_lines.specs.Writing.{IsProofOf};
ghost use Rattle.grind_goal_equations.specs.Building.{IsClosure};
ghost use Rattle.grind_goal_equations.specs.Given.{IsOfSource, IsRefuted};

use crate::closing::refute;
use grind_given_lines::{Written, by_hypothesis, place_of_conclusion, write_down};
use grind_goal_equations::{Fact, Known, first_refuted, known_of};
use grind_outside::Memory;
use grind_proof_kernel::Proof;
use grind_proof_writer::Writer;
use grind_schemes::{Goal, Lemmas};
use std::alloc::Global;

/// The answer to a goal.
#[derive(Drop)]
pub enum Plain {
    /// The goal follows, by this proof.
    Closed(Proof),
    /// Congruence does not decide the goal.
    Unexplored,
}

/// Closes a goal whose conclusion is a hypothesis, or that follows by congruence from the equations that it gives. It answers
/// `Unexplored` exactly where neither is so. The proof has the terms of the goal.
///
/// # Errors
///
/// `Memory`.
pub fn solve_goal(alloc: Global, lemmas: &Lemmas, goal: &Goal) -> Result<Plain, Memory>
    ensures { IfOk result (IsRightFor lemmas.now goal.now) }
{
    if let Some(k) = place_of_conclusion(goal) {
        let writer = Writer {
            alloc,
            lemmas,
            goal,
            branch: 0,
        };
        let proof = by_hypothesis(&writer, k)?;
        return Ok(Plain::Closed(proof));
    }
    let answer = by_congruence(alloc, lemmas, goal)?;
    Ok(answer)
}

// Closes a goal that follows by congruence, and no other. Lines are written once a pair that the goal denies is found to
// follow, and not before.
fn by_congruence(alloc: Global, lemmas: &Lemmas, goal: &Goal) -> Result<Plain, Memory>
    ensures { IfOk result (IsDecided lemmas.now goal.now) }
{
    let _count = goal.terms.len();
    let known = known_of(alloc, goal)?;
    let _classes = known.closure.classes();
    let Some(fact) = first_refuted(goal, &known.closure) else {
        return Ok(Plain::Unexplored);
    };
    let writer = Writer {
        alloc,
        lemmas,
        goal,
        branch: 0,
    };
    let proof = refutation(&writer, &known, &fact)?;
    Ok(Plain::Closed(proof))
}

// The proof of a goal that denies a pair that follows from those that it gives.
fn refutation(writer: &Writer, known: &Known, fact: &Fact) -> Result<Proof, Memory>
    requires root { writer.now.branch ≡ 0 }
    requires sources { All (IsOfSource writer.now.goal.now) known.now.given }
    requires closure { IsClosure writer.now.goal.now.terms.nodes known.now.given known.now.closure }
    requires refuted { IsRefuted writer.now.goal.now known.now.closure fact.now }
    ensures { IfOk result (IsProofOf writer.now.lemmas.now writer.now.goal.now) }
{
    let Written { mut proof, whys } = write_down(writer, &known.given)?;
    refute(writer, &mut proof, &whys, &known.closure, fact)?;
    Ok(proof)
}
