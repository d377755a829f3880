//! The pairs that a goal gives.
ghost use Rattle.std.specs.Prelude.{◌≡◌, ◌+◌, ◌≤◌, true, length, All, IfOk, OnOk};
ghost use Rattle.grind_goal_equations.specs.Facts.{IsFact, equates};
ghost use Rattle.grind_goal_equations.specs.Given.{IsOfSource, HasPair, KeepsPairs, Covers, CoversAll};

use crate::fact::{Fact, fact_at};
use grind_congruence::Edge;
use grind_outside::{List, Memory};
use grind_schemes::Goal;
use std::alloc::Global;

/// Whether a fact says that its terms are equal.
pub fn is_equal(fact: &Fact) -> bool
    ensures { result ≡ equates fact.now }
{
    let plain = fact.reading.plain;
    if fact.holds {
        return plain;
    }
    !plain
}

// The next number.
fn next_number(k: u32) -> Result<u32, Memory>
    ensures { IfOk result (λ n. n ≡ k + 1) }
{
    let Some(n) = k.checked_add(1) else {
        return Err(Memory);
    };
    Ok(n)
}

// Puts the pair of a fact that says that its terms are equal after the others.
fn push_pair(_goal: &Goal, given: &mut List<Edge>, fact: &Fact) -> Result<(), Memory>
    requires sources { All (IsOfSource _goal.now) given.old }
    requires fact { IsFact _goal.now fact.now }
    requires equal { equates fact.now ≡ true }
    ensures sources { OnOk result (All (IsOfSource _goal.now) given.new) }
    ensures keeps { OnOk result (KeepsPairs given.old given.new) }
    ensures pair { OnOk result (HasPair given.new fact.now.reading.left fact.now.reading.right) }
{
    let reading = fact.reading;
    let why = next_number(fact.source)?;
    given.push(Edge {
        left: reading.left,
        right: reading.right,
        why,
    })?;
    Ok(())
}

// Puts the pair that a source gives, if it does, after the others.
fn push_source(goal: &Goal, given: &mut List<Edge>, k: u32) -> Result<(), Memory>
    requires sources { All (IsOfSource goal.now) given.old }
    requires source { k ≤ length goal.now.hyps }
    ensures sources { OnOk result (All (IsOfSource goal.now) given.new) }
    ensures keeps { OnOk result (KeepsPairs given.old given.new) }
    ensures covers { OnOk result (Covers goal.now given.new k) }
{
    let Some(fact) = fact_at(goal, k) else {
        return Ok(());
    };
    if !is_equal(&fact) {
        return Ok(());
    }
    push_pair(goal, given, &fact)?;
    Ok(())
}

// The pairs that the goal gives.
pub(crate) fn given_by(alloc: Global, goal: &Goal) -> Result<List<Edge>, Memory>
    ensures sources { IfOk result (λ given. All (IsOfSource goal.now) given) }
    ensures covers { IfOk result (λ given. CoversAll goal.now given) }
{
    let _name = goal.name();
    let _nodes = goal.terms.len();
    let count = goal.hyps.len() as u32;
    let mut given = List::new(alloc);
    for k in 0..count {
        push_source(goal, &mut given, k)?;
    }
    push_source(goal, &mut given, count)?;
    Ok(given)
}
