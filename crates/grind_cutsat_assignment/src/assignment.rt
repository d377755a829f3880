//! The assignment.
ghost use Rattle.std.specs.Prelude.{◌≡◌, ◌+◌, ◌<◌, ◌^◌, length, IfOk, OnOk};
ghost use Rattle.grind_cutsat_assignment.specs.Assignments.{IsOutcome, IsFailure, NoAssignment};
ghost use Rattle.grind_cutsat_assignment.specs.Collecting.{stop_outcome, AreCollected};
ghost use Rattle.grind_cutsat_bounds.specs.Evaluations as specs;
ghost use Rattle.grind_cutsat_assignment.specs.Given.{given, Fits};
ghost use Rattle.grind_cutsat_assignment.specs.Walks.{AreForms, AreWithin};

use crate::atoms::atoms;
use crate::differences::{first_equal, first_unfit};
use crate::outcome::{Chosen, Outcome};
use crate::readings::{Readings, readings_of};
use crate::walk::{Stop, Walk, is_marked, values_of};
use grind_classes::Classes;
use grind_cutsat_bounds::evaluation::value_of;
use grind_cutsat_facts::Fact;
use grind_linear_forms::readings_name_numbers;
use grind_outside::{List, Memory};
use grind_term_graph::{NodeId, TermTable};
use std::alloc::Global;

/// The assignment for the facts, or why there is none.
///
/// # Errors
///
/// `Memory` if out of memory.
pub fn assign(
    alloc: Global,
    facts: &[Fact],
    terms: &TermTable,
    classes: &Classes,
) -> Result<Outcome, Memory>
    requires { Fits (given facts.now terms.now.nodes classes.now.lists) }
    ensures outcome { IfOk result (λ outcome. IsOutcome (given facts.now terms.now.nodes classes.now.lists) outcome) }
    ensures none { IfOk result (λ outcome. IsFailure outcome → NoAssignment (given facts.now terms.now.nodes classes.now.lists)) }
{
    readings_name_numbers();
    let _count = terms.len();
    let outcome = outcome_of(alloc, facts, terms, classes)?;
    Ok(outcome)
}

/// The outcome. The forms that the facts bound turn out to be in order.
fn outcome_of(
    alloc: Global,
    facts: &[Fact],
    terms: &TermTable,
    classes: &Classes,
) -> Result<Outcome, Memory>
    requires fits { Fits (given facts.now terms.now.nodes classes.now.lists) }
    requires within { AreWithin (given facts.now terms.now.nodes classes.now.lists) }
    ensures outcome { IfOk result (λ outcome. IsOutcome (given facts.now terms.now.nodes classes.now.lists) outcome) }
    ensures forms { IfOk result (λ outcome. AreForms facts.now) }
{
    let forms = readings_of(alloc, facts, terms, classes)?;
    let readings = Readings {
        terms,
        forms: &forms,
    };
    let marks = atoms(alloc, facts, &readings, classes)?;
    let values = match values_of(alloc, facts, marks.as_slice())? {
        Walk::Values(values) => values,
        Walk::Stopped(stop) => return Ok(stopped(stop)),
    };
    if let Some(post) = first_unfit(facts, &readings, values.as_slice()) {
        return Ok(Outcome::Unfit(post));
    }
    if let Some(post) = first_equal(facts, &readings, values.as_slice()) {
        return Ok(Outcome::Equal(post));
    }
    let list = collected(alloc, marks.as_slice(), values.as_slice())?;
    Ok(Outcome::Assigned(list))
}

/// The answer to a walk that ended before the last atom.
fn stopped(stop: Stop) -> Outcome
    ensures { result ≡ stop_outcome stop }
{
    match stop {
        Stop::Gap(node, floor) => Outcome::Gap { node, floor },
        Stop::Unfit(_, post) => Outcome::Unfit(post),
    }
}

/// The marked nodes with their values, in the order of their numbers.
fn collected(alloc: Global, marks: &[bool], values: &[i128]) -> Result<List<Chosen>, Memory>
    requires { length marks.now < 2 ^ 32 }
    ensures { IfOk result (λ list. AreCollected marks.now (specs.value_of values.now) (length marks.now) list) }
{
    let mut list = List::new(alloc);
    for number in 0..marks.len() {
        collect(&mut list, marks, values, number)?;
    }
    Ok(list)
}

/// Puts the node of this number and its value at the end, if it is marked.
fn collect(
    list: &mut List<Chosen>,
    marks: &[bool],
    values: &[i128],
    number: usize,
) -> Result<(), Memory>
    requires bound { number < 2 ^ 32 }
    requires collected { AreCollected marks.now (specs.value_of values.now) number list.old }
    ensures { OnOk result (AreCollected marks.now (specs.value_of values.now) (number + 1) list.new) }
{
    if !is_marked(marks, number) {
        return Ok(());
    }
    let node = NodeId::new(number as u32);
    list.push(Chosen {
        node,
        value: value_of(values, node),
    })?;
    Ok(())
}
