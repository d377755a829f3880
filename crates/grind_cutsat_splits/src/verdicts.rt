//! The assignment, or what is to be done where there is none.
ghost use Rattle.std.specs.Prelude.{◌≡◌, pos, ◌+ℤ◌, neg_ℤ, FitsSigned, IfOk};
ghost use Rattle.std.specs.Int.{w128};
ghost use Rattle.grind_cutsat_assignment.specs.Given.{given, Fits};
ghost use Rattle.grind_cutsat_splits.specs.Splits.{gap_form, IsVerdict};
ghost use Rattle.grind_cutsat_splits.specs.Alone.{AreChosen, IsInside, IsLeft, IsOrdered};

use crate::bounds::bounds_alone;
use crate::evaluation::Scene;
use crate::judging::{first_split, first_unfit};
use crate::types::Verdict;
use grind_cutsat_assignment::{Chosen, Outcome, assign};
use grind_cutsat_units::View;
use grind_linear_forms::{Form, readings_name_numbers};
use grind_outside::{List, Memory};
use grind_term_graph::NodeId;
use std::alloc::Global;

/// The assignment for the facts; or where there is none, the split that is wanted; or before either a post that does not fit.
///
/// # Errors
///
/// `Memory` if out of memory.
pub fn verdict(alloc: Global, view: &View) -> Result<Verdict, Memory>
    requires { Fits (given view.now.facts.now view.now.terms.now.nodes view.now.classes.now.lists) }
    ensures { IfOk result (λ verdict. IsVerdict (given view.now.facts.now view.now.terms.now.nodes view.now.classes.now.lists) verdict) }
{
    readings_name_numbers();
    let _count = view.terms.len();
    let bounds = bounds_alone(alloc, view.facts.as_slice())?;
    let outcome = assign(alloc, bounds.as_slice(), view.terms, view.classes)?;
    let verdict = told(alloc, view, outcome)?;
    Ok(verdict)
}

// What is answered to what the bounds alone leave.
fn told(alloc: Global, view: &View, outcome: Outcome) -> Result<Verdict, Memory>
    requires fits { Fits (given view.now.facts.now view.now.terms.now.nodes view.now.classes.now.lists) }
    requires ordered { IsOrdered (given view.now.facts.now view.now.terms.now.nodes view.now.classes.now.lists) }
    requires left { IsLeft (given view.now.facts.now view.now.terms.now.nodes view.now.classes.now.lists) outcome }
    ensures { IfOk result (λ verdict. IsVerdict (given view.now.facts.now view.now.terms.now.nodes view.now.classes.now.lists) verdict) }
{
    match outcome {
        Outcome::Assigned(list) => {
            let verdict = of_values(alloc, view, list)?;
            Ok(verdict)
        }
        Outcome::Gap { node, floor } => {
            let form = gap_split(alloc, node, floor)?;
            Ok(Verdict::Split(form))
        }
        Outcome::Unfit(post) => Ok(Verdict::Unfit(post)),
        Outcome::Equal(post) => Ok(Verdict::Unfit(post)),
    }
}

// The atom less the greatest number that its upper bounds allow.
fn gap_split(alloc: Global, node: NodeId, floor: i128) -> Result<Form, Memory>
    requires { IsInside floor }
    ensures { IfOk result (λ form. form ≡ gap_form node floor) }
{
    let atom = Form::node(alloc, node)?;
    let _parts = atom.parts();
    Ok(Form {
        parts: atom.parts,
        constant: negated(floor),
    })
}

// The negation of a number, where it fits.
fn negated(number: i128) -> i128
    requires { FitsSigned w128 (neg_ℤ number) }
    ensures { result ≡ pos 0 +ℤ neg_ℤ number }
{
    -number
}

// What the values of all atoms make of the claims that two whole numbers differ.
fn of_values(alloc: Global, view: &View, list: List<Chosen>) -> Result<Verdict, Memory>
    requires fits { Fits (given view.now.facts.now view.now.terms.now.nodes view.now.classes.now.lists) }
    requires ordered { IsOrdered (given view.now.facts.now view.now.terms.now.nodes view.now.classes.now.lists) }
    requires chosen { AreChosen (given view.now.facts.now view.now.terms.now.nodes view.now.classes.now.lists) list }
    ensures { IfOk result (λ verdict. IsVerdict (given view.now.facts.now view.now.terms.now.nodes view.now.classes.now.lists) verdict) }
{
    let scene = Scene {
        terms: view.terms,
        values: list.as_slice(),
    };
    let unfit = first_unfit(alloc, view.facts.as_slice(), &scene)?;
    if let Some(post) = unfit {
        return Ok(Verdict::Unfit(post));
    }
    let split = first_split(alloc, view.facts.as_slice(), &scene)?;
    if let Some(form) = split {
        return Ok(Verdict::Split(form));
    }
    Ok(Verdict::Assigned(list))
}
