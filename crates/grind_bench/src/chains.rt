//! A proof that is a chain of `trans` lines.
ghost use Rattle.std.specs.Prelude.{IfOk, ◌≤◌};
ghost use Rattle.grind_proof_kernel.specs.Typing.{HasTerms};

use grind_outside::{List, Memory};
use grind_proof_kernel::{Claim, Line, Proof, Rule};
use grind_schemes::Goal;
use grind_term_graph::NodeId;
use std::alloc::Global;

/// A proof of the goal with so many lines `trans` one after the other.
pub fn chain(alloc: Global, goal: &Goal, size: u32) -> Result<Proof, Memory>
    requires { size ≤ 4000000 }
    ensures { IfOk result (HasTerms goal.now) }
{
    let _name = goal.name();
    let lines = lines_of(alloc, goal.show(), NodeId::new(3), size)?;
    let branches = List::new(alloc);
    let terms = goal.terms().copy(alloc, u32::MAX)?;
    Ok(Proof {
        terms,
        branches,
        lines,
    })
}

/// The lines of the chain.
fn lines_of(alloc: Global, show: NodeId, side: NodeId, size: u32) -> Result<List<Line>, Memory>
    requires { size ≤ 4000000 }
{
    let mut lines = List::new(alloc);
    lines.push(line(alloc, 0, Rule::Negated, &[], Claim::Fails(show))?)?;
    lines.push(line(alloc, 0, Rule::Refl, &[], Claim::Same(side, side))?)?;
    for last in 1..size + 1 {
        lines.push(line(alloc, 0, Rule::Trans, &[last, 1], Claim::Same(side, side))?)?;
    }
    let back = line(alloc, 0, Rule::Back, &[size + 1], Claim::Holds(show))?;
    lines.push(back)?;
    let clash = line(alloc, 0, Rule::Clash, &[size + 2, 0], Claim::Absurd)?;
    lines.push(clash)?;
    Ok(lines)
}

/// A line of that branch.
pub fn line(
    alloc: Global,
    branch: u32,
    rule: Rule,
    from: &[u32],
    claim: Claim,
) -> Result<Line, Memory> {
    let mut premises = List::new(alloc);
    premises.extend(from)?;
    Ok(Line {
        branch,
        rule,
        premises,
        claim,
    })
}
