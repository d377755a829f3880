//! Why the pairs that a goal gives hold, written down once the goal is known to follow.
ghost use Rattle.std.specs.Prelude.{◌≡◌, ◌+◌, ◌∷◌, [], ◌≤◌, length, All, IfOk, OnOk};
ghost use Rattle.grind_needed_edges.specs.declared.why.Why.TheVariants.{Congruence};
ghost use Rattle.grind_proof_writer.specs.Writing.{Writes};
ghost use Rattle.grind_given_lines.specs.Writing.{WritesRoot};
ghost use Rattle.grind_goal_equations.specs.Given.{IsOfSource};
ghost use Rattle.grind_given_lines.specs.Written.{IsReasonOf, AreWritten, IsLedger};

use crate::fact_lines::fact_line;
use crate::hypothesis::empty_proof;
use grind_congruence::Edge;
use grind_goal_equations::{fact_at, is_equal};
use grind_needed_edges::Why;
use grind_outside::{List, Memory};
use grind_proof_kernel::Proof;
use grind_proof_writer::Writer;
use std::alloc::Global;

// Why the pair that a source gives holds: a line, which it writes. No edge has the number of a source that gives none.
fn reason_of(writer: &Writer, proof: &mut Proof, k: u32) -> Result<Why, Memory>
    requires root { WritesRoot writer.now proof.old }
    requires source { k ≤ length writer.now.goal.now.hyps }
    ensures root { WritesRoot writer.now proof.new }
    ensures writes { Writes writer.now proof.old proof.new }
    ensures reason { IfOk result (IsReasonOf writer.now.goal.now proof.new k) }
{
    let Some(fact) = fact_at(writer.goal, k) else {
        return Ok(Why::Congruence);
    };
    if !is_equal(&fact) {
        return Ok(Why::Congruence);
    }
    let line = fact_line(writer, proof, &fact)?;
    Ok(Why::Line(line))
}

// Writes down what a source gives.
fn write_source(
    writer: &Writer,
    proof: &mut Proof,
    whys: &mut List<Why>,
    k: u32,
) -> Result<(), Memory>
    requires root { WritesRoot writer.now proof.old }
    requires written { AreWritten writer.now.goal.now proof.old whys.old k }
    requires source { k ≤ length writer.now.goal.now.hyps }
    ensures root { OnOk result (WritesRoot writer.now proof.new) }
    ensures written { OnOk result (AreWritten writer.now.goal.now proof.new whys.new (k + 1)) }
{
    let why = reason_of(writer, proof, k)?;
    whys.push(why)?;
    Ok(())
}

// Writes down what each source gives.
fn write_all(writer: &Writer, proof: &mut Proof, whys: &mut List<Why>) -> Result<(), Memory>
    requires root { WritesRoot writer.now proof.old }
    requires written { AreWritten writer.now.goal.now proof.old whys.old 0 }
    ensures root { OnOk result (WritesRoot writer.now proof.new) }
    ensures written { OnOk result (AreWritten writer.now.goal.now proof.new whys.new (length writer.now.goal.now.hyps + 1)) }
{
    let goal = writer.goal;
    let _name = goal.name();
    let count = goal.hyps.len() as u32;
    for k in 0..count {
        write_source(writer, proof, whys, k)?;
    }
    write_source(writer, proof, whys, count)?;
    Ok(())
}

// The reasons before any source: the number 0 is for congruences.
fn first_whys(alloc: Global) -> Result<List<Why>, Memory>
    ensures { IfOk result (λ whys. whys ≡ Congruence ∷ []) }
{
    let mut whys = List::new(alloc);
    whys.push(Why::Congruence)?;
    Ok(whys)
}

/// A proof with a line for each pair that a goal gives, and why these pairs hold.
#[derive(Drop)]
pub struct Written {
    /// The proof, over the terms of the goal.
    pub proof: Proof,
    /// The reasons, by the numbers of the edges.
    pub whys: List<Why>,
}

/// Writes down the pairs that the goal gives.
///
/// # Errors
///
/// `Memory`.
pub fn write_down(writer: &Writer, _given: &List<Edge>) -> Result<Written, Memory>
    requires root { writer.now.branch ≡ 0 }
    requires sources { All (IsOfSource writer.now.goal.now) _given.now }
    ensures root { IfOk result (λ it. WritesRoot writer.now it.proof) }
    ensures ledger { IfOk result (λ it. IsLedger writer.now.lemmas.now writer.now.goal.now it.proof it.whys _given.now) }
{
    let mut proof = empty_proof(writer)?;
    let mut whys = first_whys(writer.alloc)?;
    write_all(writer, &mut proof, &mut whys)?;
    Ok(Written { proof, whys })
}
