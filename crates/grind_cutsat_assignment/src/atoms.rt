//! Which nodes are atoms.
ghost use Rattle.std.specs.Prelude.{◌≡◌, false, replicate, IfOk};
ghost use Rattle.grind_cutsat_assignment.specs.Given.{given, Fits};
ghost use Rattle.grind_cutsat_assignment.specs.Walks.{Adds, AreForms, IsFormIfBound, TakesPart, TakenAmong, TakenByClaim, TakenByReading, TakenAt, TakenFrom, AreRead, AreMarks};

use crate::readings::Readings;
use grind_claims::Claim;
use grind_classes::Classes;
use grind_cutsat_facts::Fact;
use grind_differences::is_number;
use grind_linear_forms::{Form, Part};
use grind_outside::{List, Memory};
use grind_reach::held;
use grind_term_graph::NodeId;
use std::alloc::Global;

/// For each node, whether it is an atom.
pub(crate) fn atoms(
    alloc: Global,
    facts: &[Fact],
    readings: &Readings,
    classes: &Classes,
) -> Result<List<bool>, Memory>
    requires fits { Fits (given facts.now readings.now.terms.now.nodes classes.now.lists) }
    requires read { AreRead (given facts.now readings.now.terms.now.nodes classes.now.lists) readings.now.forms.now }
    ensures marks { IfOk result (λ marks. AreMarks (given facts.now readings.now.terms.now.nodes classes.now.lists) marks) }
    ensures forms { IfOk result (λ marks. AreForms facts.now) }
{
    let mut marks = unmarked(alloc, readings.terms.len() as usize)?;
    mark_facts(&mut marks, facts);
    mark_readings(&mut marks, readings, classes);
    Ok(marks)
}

#[tactic(auto, using(crate::proofs::WalkLemmas::replicate_next))]
/// So many nodes, none of them marked.
fn unmarked(alloc: Global, count: usize) -> Result<List<bool>, Memory>
    ensures { IfOk result (λ marks. marks ≡ replicate count false) }
{
    let mut marks = List::new(alloc);
    for _number in 0..count {
        marks.push(false)?;
    }
    Ok(marks)
}

/// Marks the nodes that facts take.
fn mark_facts(marks: &mut List<bool>, facts: &[Fact])
    ensures marks { Adds marks.old marks.new (TakenAmong facts.now) }
    ensures forms { AreForms facts.now }
{
    let mut rest = facts;
    while let Some((fact, tail)) = rest.split_first() {
        mark_claim(marks, &fact.claim);
        rest = tail;
    }
}

/// Marks the nodes that the claim takes, if it bounds a form.
fn mark_claim(marks: &mut List<bool>, claim: &Claim)
    ensures marks { Adds marks.old marks.new (TakenByClaim claim.now) }
    ensures form { IsFormIfBound claim.now }
{
    let Claim::AtMost(form) = claim else {
        return;
    };
    mark_parts(marks, form.parts());
}

/// Marks the nodes that the readings of active whole numbers take.
fn mark_readings(marks: &mut List<bool>, readings: &Readings, classes: &Classes)
    ensures { Adds marks.old marks.new (TakenFrom readings.now.terms.now.nodes classes.now.lists readings.now.forms.now 0) }
{
    for number in 0..readings.terms.len() {
        mark_active(marks, readings, classes, NodeId::new(number));
    }
}

/// Marks the nodes that the reading of the node takes, if it is an active whole number.
fn mark_active(marks: &mut List<bool>, readings: &Readings, classes: &Classes, node: NodeId)
    ensures { Adds marks.old marks.new (TakenAt readings.now.terms.now.nodes classes.now.lists readings.now.forms.now node) }
{
    if !classes.is_active(node) {
        return;
    }
    if !is_number(readings.terms, node) {
        return;
    }
    mark_reading(marks, readings.forms, node);
}

/// Marks the nodes that the reading of the node takes.
fn mark_reading(marks: &mut List<bool>, forms: &List<Option<Form>>, node: NodeId)
    ensures { Adds marks.old marks.new (TakenByReading forms.now node) }
{
    if (node.number() as usize) >= forms.len() {
        return;
    }
    let Some(form) = held(forms, node) else {
        return;
    };
    mark_parts(marks, form.parts());
}

/// Marks the nodes of these parts.
fn mark_parts(marks: &mut List<bool>, parts: &[Part])
    ensures { Adds marks.old marks.new (TakesPart parts.now) }
{
    let mut rest = parts;
    while let Some((part, tail)) = rest.split_first() {
        mark(marks, part.node);
        rest = tail;
    }
}

/// Marks the node, if it has a place.
fn mark(marks: &mut List<bool>, node: NodeId)
    ensures { Adds marks.old marks.new (λ n. n ≡ node) }
{
    let place = node.number() as usize;
    if place >= marks.len() {
        return;
    }
    marks.set(place, true);
}
