//! The next consequence.
ghost use Rattle.std.specs.Prelude.{◌≡◌, ◌↔◌, ℕ, IfOk};
ghost use Rattle.grind_classes.specs.Classes.{IsPartition};
ghost use Rattle.grind_truth_prop.specs.Given.{Fits};
ghost use Rattle.grind_truth_prop.specs.Splits.{IsWanted};
ghost use Rattle.grind_truth_prop.specs.Findings.{equated_answer, IsAnswerTo};
ghost use Rattle.grind_truth_prop.specs.Steps.{IsStep, IsAtRest, NoneAtClasses, NothingFollows};

use crate::pairs::{parted_places, places_of};
use crate::types::{Known, TruthStep};
use crate::units::classed::first_classed;
use crate::units::connectives::{Finding, Settled, first_settled, free_nodes};
use crate::units::equations::{Equated, Equation, first_equation};
use crate::units::sides::first_sides;
use crate::units::splits::first_wanted;
use grind_classes::Classes;
use grind_outside::Memory;
use grind_term_graph::NodeId;
use std::alloc::Global;

/// The first unit that has a case; where none has, the formula whose truth is to be tried; where there is none,
/// rest.
///
/// # Errors
///
/// `Memory` if out of memory.
pub fn truth_step(alloc: Global, known: &Known, classes: &Classes) -> Result<TruthStep, Memory>
    requires { Fits known.now classes.now.lists }
    ensures step { IfOk result (λ step. IsStep known.now classes.now.lists step) }
    ensures wants { IfOk result (λ step. (n : ℕ) → (step ≡ TruthStep.Wants n)
        ↔ (NothingFollows known.now classes.now.lists × IsWanted known.now classes.now.lists n)) }
    ensures rest { IfOk result (λ step. (step ≡ TruthStep.Rest) ↔ IsAtRest known.now classes.now.lists) }
{
    let _active = classes.is_active(NodeId::TRUE);
    let step = step_at_classes(alloc, known, classes)?;
    Ok(step)
}

/// The step, whichever it is.
fn step_at_classes(alloc: Global, known: &Known, classes: &Classes) -> Result<TruthStep, Memory>
    requires fits { Fits known.now classes.now.lists }
    requires partition { IsPartition classes.now.lists }
    ensures { IfOk result (λ step. IsStep known.now classes.now.lists step) }
{
    if let Some(it) = first_classed(known, classes) {
        return Ok(TruthStep::Classed {
            node: it.node,
            value: it.value,
        });
    }
    let same = places_of(alloc, known.same.as_slice())?;
    let apart = places_of(alloc, known.apart.as_slice())?;
    if let Some(node) = first_sides(known, classes, &same, &apart) {
        return Ok(TruthStep::Sides { node });
    }
    let step = step_at_equations(alloc, known, classes)?;
    Ok(step)
}

/// The step, where it is not one of the class of `True` or `False` nor of the sides of a known equation.
fn step_at_equations(alloc: Global, known: &Known, classes: &Classes) -> Result<TruthStep, Memory>
    requires fits { Fits known.now classes.now.lists }
    requires partition { IsPartition classes.now.lists }
    requires before { NoneAtClasses known.now classes.now.lists }
    ensures { IfOk result (λ step. IsStep known.now classes.now.lists step) }
{
    let parted = parted_places(alloc, known, classes)?;
    if let Some(it) = first_equation(known, classes, &parted) {
        return Ok(equated_step(&it));
    }
    if let Some(it) = first_settled(known, classes) {
        let step = settled_step(alloc, &it)?;
        return Ok(step);
    }
    match first_wanted(known, classes) {
        Some(node) => Ok(TruthStep::Wants(node)),
        None => Ok(TruthStep::Rest),
    }
}

/// The answer to an unknown equation of whose sides it is known whether they are equal.
fn equated_step(it: &Equation) -> TruthStep
    ensures { result ≡ equated_answer it.now.node it.now.equated }
{
    match it.equated {
        Equated::Joined => TruthStep::Joined { node: it.node },
        Equated::Parted(apart) => TruthStep::Parted {
            node: it.node,
            apart,
        },
    }
}

/// The answer to a connective at which something follows.
fn settled_step(alloc: Global, it: &Settled) -> Result<TruthStep, Memory>
    ensures { IfOk result (λ step. IsAnswerTo it.now.node it.now.finding step) }
{
    match it.finding {
        Finding::Contradiction => Ok(TruthStep::Conflict { node: it.node }),
        Finding::Truth {
            node,
            value,
            first,
            second,
        } => {
            let atoms = free_nodes(alloc, first, second)?;
            Ok(TruthStep::Settle { node, value, atoms })
        }
    }
}
