//! A proof of many branches: each pair but the first goes on from the second branch of the one before.
ghost use Rattle.std.specs.Prelude.{IfOk, ◌≤◌};
ghost use Rattle.grind_proof_kernel.specs.Typing.{HasTerms};

use crate::chains::line;
use grind_outside::{List, Memory};
use grind_proof_kernel::{Branch, Claim, Line, Proof, Rule};
use grind_schemes::Goal;
use grind_term_graph::NodeId;
use std::alloc::Global;

/// A proof of the goal with so many pairs of branches.
pub fn tree(alloc: Global, goal: &Goal, pairs: u32) -> Result<Proof, Memory>
    requires { pairs ≤ 1000000 }
    ensures { IfOk result (HasTerms goal.now) }
{
    let _name = goal.name();
    let branches = branches_of(alloc, goal.show(), pairs)?;
    let lines = lines_of(alloc, goal.show(), NodeId::new(3), pairs)?;
    let terms = goal.terms().copy(alloc, u32::MAX)?;
    Ok(Proof {
        terms,
        branches,
        lines,
    })
}

/// The branches, two for each pair: the first assumes that the conclusion holds, the second that it fails.
fn branches_of(alloc: Global, show: NodeId, pairs: u32) -> Result<List<Branch>, Memory>
    requires { pairs ≤ 1000000 }
{
    let mut branches = List::new(alloc);
    for pair in 0..pairs {
        branches.push(Branch {
            parent: pair + pair,
            after: 3 * pair,
            literal: Claim::Holds(show),
        })?;
        branches.push(Branch {
            parent: pair + pair,
            after: 3 * pair,
            literal: Claim::Fails(show),
        })?;
    }
    Ok(branches)
}

/// The lines: what the first branch of each pair assumes contradicts the goal, and the last second branch proves it.
fn lines_of(alloc: Global, show: NodeId, side: NodeId, pairs: u32) -> Result<List<Line>, Memory>
    requires { pairs ≤ 1000000 }
{
    let mut lines = List::new(alloc);
    for pair in 0..pairs {
        let first = 3 * pair;
        let branch = pair + pair + 1;
        lines.push(line(alloc, branch, Rule::Branch, &[], Claim::Holds(show))?)?;
        contradict(alloc, &mut lines, branch, first, show)?;
    }
    let first = 3 * pairs;
    let branch = pairs + pairs;
    let refl = line(alloc, branch, Rule::Refl, &[], Claim::Same(side, side))?;
    lines.push(refl)?;
    let back = line(alloc, branch, Rule::Back, &[first], Claim::Holds(show))?;
    lines.push(back)?;
    contradict(alloc, &mut lines, branch, first + 1, show)?;
    Ok(lines)
}

/// Two lines more: the goal fails, and that contradicts the line of this number, which is the one before.
fn contradict(
    alloc: Global,
    lines: &mut List<Line>,
    branch: u32,
    holds: u32,
    show: NodeId,
) -> Result<(), Memory>
    requires { holds ≤ 4000000 }
{
    let fails = line(alloc, branch, Rule::Negated, &[], Claim::Fails(show))?;
    lines.push(fails)?;
    let clash = line(
        alloc,
        branch,
        Rule::Clash,
        &[holds, holds + 1],
        Claim::Absurd,
    )?;
    lines.push(clash)?;
    Ok(())
}
