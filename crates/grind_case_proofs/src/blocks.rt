//! Blocks of reports for proofs that are given as text.
ghost use Rattle.std.specs.Prelude.{◌≡◌, ◌-◌, ◌^◌};
ghost use Rattle.std.specs.List.{AllByRecursion};
ghost use Rattle.grind_proof_kernel.specs.Typing.{HasTerms};
ghost use Rattle.grind_signature.specs.Signatures.{IsDeclared};

use crate::premises::take_premises;
use crate::proofs::{proof_in, theory_in};
use grind_cases::case::Case;
use grind_cases::unfollowed::Unfollowed;
use grind_outside::List;
use grind_proof_kernel::Proof;
use grind_report::report::{Outcome, render_block};
use grind_schemes::Goal;
use grind_signature::signature::Signature;
use std::alloc::Global;

/// The block of a report that closes the first goal by the proof.
///
/// # Errors
///
/// `Malformed` where the case has no proof that can be printed.
pub fn block_of(alloc: Global, case: &Case) -> Result<List<u8>, Unfollowed> {
    let theory = theory_in(alloc, case)?;
    let Some((goal, _)) = theory.goals.as_slice().split_first() else {
        return Err(Unfollowed::Malformed);
    };
    let proof = proof_in(alloc, case, goal, case.lines.len(), "")?;
    let block = printed(alloc, &theory.signature, goal, proof)?;
    Ok(block)
}

/// The block that closes the goal by the proof, where each rule has as many premises as are printed with it.
fn printed(
    alloc: Global,
    signature: &Signature,
    goal: &Goal,
    proof: Proof,
) -> Result<List<u8>, Unfollowed>
    requires declared { AllByRecursion (IsDeclared signature.now goal.now.constants goal.now.terms.nodes) goal.now.terms.nodes }
    requires front { HasTerms goal.now proof }
    requires terms { proof.terms ≡ record { nodes = goal.now.terms.nodes; limit = 2 ^ 32 - 1 } }
{
    if !take_premises(proof.lines.as_slice()) {
        return Err(Unfollowed::Malformed);
    }
    let outcome = Outcome::Closed(proof);
    let bytes = render_block(alloc, signature, goal, &outcome)?;
    Ok(bytes)
}
