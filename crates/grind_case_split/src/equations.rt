//! The equations that a goal gives, written down.
ghost use Rattle.std.specs.Prelude.{ℕ, ◌<◌, IfOk, length};
ghost use Rattle.grind_classes.specs.Classes.{IsActive};
ghost use Rattle.grind_congruence.specs.Congruence.{Fits};
ghost use Rattle.grind_proof_writer.specs.Lines.{IsReady};
ghost use Rattle.grind_explain.specs.Explained.{HasReasons};
ghost use Rattle.grind_goal_equations.specs.Building.{IsClosure};
ghost use Rattle.grind_goal_equations.specs.Given.{CoversAll};
ghost use Rattle.grind_given_lines.specs.Written.{IsLedger};

use grind_congruence::{Closure, Edge};
use grind_given_lines::{Written, write_down};
use grind_goal_equations::{Known, known_of};
use grind_needed_edges::Why;
use grind_outside::{List, Memory};
use grind_proof_kernel::Proof;
use grind_proof_writer::Writer;
use grind_schemes::{Goal, Lemmas};
use std::alloc::Global;

/// What the equations that a goal gives come to.
#[derive(Drop)]
pub struct Equations {
    /// A proof over the terms of the goal, with a line for each of them.
    pub proof: Proof,
    /// Why they hold, by the numbers that the edges have: a congruence at 0, and else the line.
    pub whys: List<Why>,
    /// The equations as edges, each with the number of why it holds.
    pub given: List<Edge>,
    /// Their closure under congruence, over all terms of the goal.
    pub closure: Closure,
}

/// The equations that a goal gives, a line for each of them, and their closure under congruence. Any two terms that are
/// together there can be explained.
///
/// # Errors
///
/// `Memory`.
pub fn equations_of(alloc: Global, lemmas: &Lemmas, goal: &Goal) -> Result<Equations, Memory>
    ensures ledger { IfOk result (λ it. IsLedger lemmas.now goal.now it.proof it.whys it.given) }
    ensures covers { IfOk result (λ it. CoversAll goal.now it.given) }
    ensures closure { IfOk result (λ it. IsClosure goal.now.terms.nodes it.given it.closure) }

    ensures active { IfOk result (λ it. (n : ℕ) → n < length goal.now.terms.nodes → IsActive it.closure.lists n) }
    ensures fits { IfOk result (λ it. Fits it.closure it.proof.terms.nodes) }
    ensures ready { IfOk result (λ it. IsReady lemmas.now goal.now it.proof 0) }
    ensures reasons { IfOk result (λ it. (count : ℕ) → HasReasons it.proof 0 it.closure.edges it.whys count) }
{
    let writer = Writer {
        alloc,
        lemmas,
        goal,
        branch: 0,
    };
    let Known { given, closure } = known_of(alloc, goal)?;
    let Written { proof, whys } = write_down(&writer, &given)?;
    Ok(Equations {
        proof,
        whys,
        given,
        closure,
    })
}
