//! A proof of many `table` lines, which name the last hypothesis of the goal alone.
ghost use Rattle.std.specs.Prelude.{IfOk, ◌≤◌};
ghost use Rattle.grind_proof_kernel.specs.Typing.{HasTerms};

use crate::chains::line;
use grind_outside::{List, Memory};
use grind_proof_kernel::{Claim, Line, Proof, Rule};
use grind_schemes::Goal;
use grind_term_graph::NodeId;
use std::alloc::Global;

/// A proof of the goal, whose sides are this term, with so many lines `table`.
pub fn tables(alloc: Global, goal: &Goal, side: NodeId, size: u32) -> Result<Proof, Memory>
    requires { size ≤ 1000000 }
    ensures { IfOk result (HasTerms goal.now) }
{
    let _name = goal.name();
    let lines = lines_of(alloc, goal, side, size)?;
    let branches = List::new(alloc);
    let terms = goal.terms().copy(alloc, u32::MAX)?;
    Ok(Proof {
        terms,
        branches,
        lines,
    })
}

/// The lines: the last hypothesis, so many times that it holds by its truth table, and the conclusion.
fn lines_of(alloc: Global, goal: &Goal, side: NodeId, size: u32) -> Result<List<Line>, Memory>
    requires { size ≤ 1000000 }
{
    let show = goal.show();
    let mut lines = List::new(alloc);
    lines.push(line(alloc, 0, Rule::Negated, &[], Claim::Fails(show))?)?;
    let Some(last) = goal.hyps().last() else {
        return Ok(lines);
    };
    let number = goal.hyps.len() as u32;
    let hyp = line(alloc, 0, Rule::Hyp(number), &[], Claim::Holds(*last))?;
    lines.push(hyp)?;
    for _line in 0..size {
        let mut free = List::new(alloc);
        free.push(*last)?;
        lines.push(line(alloc, 0, Rule::Table(free), &[1], Claim::Holds(*last))?)?;
    }
    let refl = line(alloc, 0, Rule::Refl, &[], Claim::Same(side, side))?;
    lines.push(refl)?;
    let back = line(alloc, 0, Rule::Back, &[size + 2], Claim::Holds(show))?;
    lines.push(back)?;
    let clash = line(alloc, 0, Rule::Clash, &[size + 3, 0], Claim::Absurd)?;
    lines.push(clash)?;
    Ok(lines)
}
