//! The values of the atoms, from the greatest down.
ghost use Rattle.std.specs.Prelude.{◌≡◌, ◌<◌, ◌^◌, ◌↔◌, pos, length, replicate, IfOk, MatchOption, IsTrue};
ghost use Rattle.grind_cutsat_bounds.specs.Evaluations.{value_of};
ghost use Rattle.grind_cutsat_assignment.specs.Walks.{AreForms, Marks};
ghost use Rattle.grind_cutsat_assignment.specs.Courses.{IsWalk, IsStop, IsSettled, IsVisited};

use grind_cutsat_bounds::{Choice, choose};
use grind_cutsat_facts::Fact;
use grind_outside::{List, Memory};
use grind_term_graph::NodeId;
use std::alloc::Global;

/// The values of the atoms, or why the walk ended before the last of them.
#[derive(Drop)]
pub(crate) enum Walk {
    /// A value for each node.
    Values(List<i128>),
    /// It ended at an atom.
    Stopped(Stop),
}

/// Why a walk ended.
#[derive(Clone, Copy)]
pub(crate) enum Stop {
    /// The bounds of the atom enclose no whole number. The second number is its least upper bound, rounded down.
    Gap(NodeId, i128),
    /// This post is a bound of the atom that does not fit.
    Unfit(NodeId, u32),
}

/// The values of the atoms, which are the nodes that are marked.
pub(crate) fn values_of(alloc: Global, facts: &[Fact], marks: &[bool]) -> Result<Walk, Memory>
    requires forms { AreForms facts.now }
    requires count { length marks.now < 2 ^ 32 }
    ensures { IfOk result (λ walk. IsWalk facts.now marks.now walk) }
{
    let mut values = zeros(alloc, marks.len())?;
    let mut number = marks.len();
    while number > 0 {
        number -= 1;
        if let Some(stop) = visit(facts, marks, &mut values, number) {
            return Ok(Walk::Stopped(stop));
        }
    }
    Ok(Walk::Values(values))
}

/// Whether the node of this number is marked.
pub(crate) fn is_marked(marks: &[bool], number: usize) -> bool
    ensures { IsTrue result ↔ Marks marks.now number }
{
    match marks.get(number) {
        Some(mark) => *mark,
        None => false,
    }
}

#[tactic(auto, using(crate::proofs::WalkLemmas::replicate_next))]
/// So many times 0.
fn zeros(alloc: Global, count: usize) -> Result<List<i128>, Memory>
    ensures { IfOk result (λ values. values ≡ replicate count (pos 0)) }
{
    let mut values = List::new(alloc);
    for _number in 0..count {
        values.push(0)?;
    }
    Ok(values)
}

/// Gives the node of this number its value, if it is an atom, or tells why it has none.
fn visit(facts: &[Fact], marks: &[bool], values: &mut List<i128>, number: usize) -> Option<Stop>
    requires within { number < length values.old }
    requires bound { number < 2 ^ 32 }
    ensures { MatchOption result (IsVisited facts.now marks.now number values.old values.new)
        (λ stop. Marks marks.now number × IsStop facts.now (value_of values.old) number stop) }
{
    if !is_marked(marks, number) {
        return None;
    }
    settle(facts, values, number)
}

/// Gives the atom of this number its value, or tells why it has none.
fn settle(facts: &[Fact], values: &mut List<i128>, number: usize) -> Option<Stop>
    requires within { number < length values.old }
    requires bound { number < 2 ^ 32 }
    ensures { MatchOption result (IsSettled facts.now number values.old values.new)
        (λ stop. IsStop facts.now (value_of values.old) number stop) }
{
    let x = NodeId::new(number as u32);
    match choose(facts, values.as_slice(), x) {
        Choice::Value(value) => {
            values.set(number, value);
            None
        }
        Choice::Gap(floor) => Some(Stop::Gap(x, floor)),
        Choice::Unfit(post) => Some(Stop::Unfit(x, post)),
    }
}
