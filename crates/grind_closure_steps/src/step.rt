//! The next consequence.
ghost use Rattle.std.specs.Prelude.{◌≡◌, ◌↔◌, IfOk};
ghost use Rattle.grind_congruence.specs.Congruence as congruence;
ghost use Rattle.grind_congruence.specs.Table.{IsLonger};
ghost use Rattle.grind_truth_prop.specs.Given.{Fits};
ghost use Rattle.grind_closure_steps.specs.Steps.{IsStep, IsClosed};

use crate::types::ClosureStep;
use crate::units::clashes::first_clash;
use crate::units::truths::first_truth;
use grind_congruence::Closure;
use grind_outside::Memory;
use grind_truth_prop::Known;
use std::alloc::Global;

/// The first unit that has a case; where none has, rest. It leaves the classes of the closure and its edges.
///
/// # Errors
///
/// `Memory` if out of memory.
pub fn closure_step(
    alloc: Global,
    known: &Known,
    closure: &mut Closure,
) -> Result<ClosureStep, Memory>
    requires known { Fits known.now closure.old.lists }
    requires closure { congruence.Fits closure.old known.now.terms.nodes }
    ensures step { IfOk result (λ step. IsStep known.now closure.old.lists step) }
    ensures rest { IfOk result (λ step. (step ≡ ClosureStep.Rest) ↔ IsClosed known.now closure.old.lists) }
    ensures lists { closure.new.lists ≡ closure.old.lists }
    ensures edges { closure.new.edges ≡ closure.old.edges }
    ensures table { IsLonger closure.old.table closure.new.table }
    ensures applications { closure.new.applications ≡ closure.old.applications }
    ensures marked { closure.new.marked ≡ closure.old.marked }
    ensures fits { congruence.Fits closure.new known.now.terms.nodes }
{
    if let Some(it) = first_truth(known, closure.classes()) {
        return Ok(ClosureStep::Truth {
            node: it.node,
            value: it.value,
        });
    }
    let answer = closure.step(alloc, &known.terms)?;
    if let Some(found) = answer {
        return Ok(ClosureStep::Congruent {
            left: found.left,
            right: found.right,
        });
    }
    match first_clash(known, closure.classes()) {
        Some(step) => Ok(step),
        None => Ok(ClosureStep::Rest),
    }
}
