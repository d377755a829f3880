//! Proofs that end with a pair that a goal denies.
ghost use Rattle.std.specs.Prelude.{ℕ, OnOk};
ghost use Rattle.grind_congruence.specs.Congruence.{Fits};
ghost use Rattle.grind_explain.specs.Explained.{HasReasons};
ghost use Rattle.grind_given_lines.specs.Writing.{IsProofOf, WritesRoot};
ghost use Rattle.grind_goal_equations.specs.Given.{IsRefuted};

use grind_congruence::Closure;
use grind_explain::explain;
use grind_given_lines::{clash_line, fact_line};
use grind_goal_equations::Fact;
use grind_needed_edges::Why;
use grind_outside::{List, Memory};
use grind_proof_kernel::Proof;
use grind_proof_writer::Writer;

// Ends a proof of the given pairs with the refutation of a fact.
pub(crate) fn refute(
    writer: &Writer,
    proof: &mut Proof,
    whys: &List<Why>,
    closure: &Closure,
    fact: &Fact,
) -> Result<(), Memory>
    requires root { WritesRoot writer.now proof.old }
    requires fits { Fits closure.now writer.now.goal.now.terms.nodes }
    requires reasons { (count : ℕ) → HasReasons proof.old writer.now.branch closure.now.edges whys.now count }
    requires refuted { IsRefuted writer.now.goal.now closure.now fact.now }
    ensures { OnOk result (IsProofOf writer.now.lemmas.now writer.now.goal.now proof.new) }
{
    let reading = fact.reading;
    let same = explain(
        writer.alloc,
        closure,
        whys,
        writer.lemmas,
        writer.goal,
        proof,
        writer.branch,
        reading.left,
        reading.right,
    )?;
    let differ = fact_line(writer, proof, fact)?;
    clash_line(writer, proof, same, differ)?;
    Ok(())
}
