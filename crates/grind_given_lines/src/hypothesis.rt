//! A goal whose conclusion is a hypothesis.
ghost use Rattle.std.specs.Prelude.{◌≡◌, Some, IfOk, IfSome, IsNone, Contains, slice_get};
ghost use Rattle.grind_given_lines.specs.Writing.{IsProofOf, WritesRoot};

use crate::fact_lines::{clash_line, put_first};
use grind_outside::Memory;
use grind_proof_kernel::{Claim, Proof, Rule};
use grind_proof_writer::Writer;
use grind_schemes::Goal;

/// The place of the hypothesis that is the conclusion, if there is one.
pub fn place_of_conclusion(goal: &Goal) -> Option<u32>
    ensures some { IfSome result (λ k. slice_get goal.now.hyps k ≡ Some goal.now.show) }
    ensures none { IsNone result → Contains goal.now.hyps goal.now.show → ⊥ }
{
    let show = goal.show();
    let hyps = goal.hyps.as_slice();
    for k in 0..hyps.len() {
        if hyps[k] == show {
            return Some(k as u32);
        }
    }
    None
}

// The proof of no lines over the terms of a goal.
pub(crate) fn empty_proof(writer: &Writer) -> Result<Proof, Memory>
    requires { writer.now.branch ≡ 0 }
    ensures { IfOk result (WritesRoot writer.now) }
{
    let proof = writer.begin()?;
    Ok(proof)
}

/// The proof of a goal whose conclusion is a hypothesis.
///
/// # Errors
///
/// `Memory`.
pub fn by_hypothesis(writer: &Writer, k: u32) -> Result<Proof, Memory>
    requires root { writer.now.branch ≡ 0 }
    requires stands { slice_get writer.now.goal.now.hyps k ≡ Some writer.now.goal.now.show }
    ensures { IfOk result (IsProofOf writer.now.lemmas.now writer.now.goal.now) }
{
    let goal = writer.goal;
    let _name = goal.name();
    let _count = goal.hyps.len();
    let show = goal.show();
    let mut proof = empty_proof(writer)?;
    let held = put_first(writer, &mut proof, Rule::Hyp(k + 1), Claim::Holds(show))?;
    let denied = put_first(writer, &mut proof, Rule::Negated, Claim::Fails(show))?;
    clash_line(writer, &mut proof, held, denied)?;
    Ok(proof)
}
