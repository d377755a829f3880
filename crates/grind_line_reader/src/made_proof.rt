//! A proof that is made by hand.
ghost use Rattle.std.specs.Prelude.{◌≡◌, ◌-◌, ◌^◌, IfOk};
ghost use Rattle.grind_proof_kernel.specs.Typing.{HasTerms};

use grind_outside::{List, Memory};
use grind_proof_kernel::{Branch, Line, Proof};
use grind_schemes::Goal;
use std::alloc::Global;

/// A proof over the terms of the goal, with these branches and lines.
pub fn proof_of(
    alloc: Global,
    goal: &Goal,
    branches: List<Branch>,
    lines: List<Line>,
) -> Result<Proof, Memory>
    ensures front { IfOk result (HasTerms goal.now) }
    ensures terms { IfOk result (λ proof. proof.terms ≡ record { nodes = goal.now.terms.nodes; limit = 2 ^ 32 - 1 }) }
{
    let _name = goal.name();
    let terms = goal.terms().copy(alloc, u32::MAX)?;
    Ok(Proof {
        terms,
        branches,
        lines,
    })
}
