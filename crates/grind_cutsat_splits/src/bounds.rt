//! The bounds among the facts.
ghost use Rattle.std.specs.Prelude.{IfOk, OnOk};
ghost use Rattle.grind_cutsat_splits.specs.Alone.{IsKept, AreBoundsOf};

use grind_claims::Claim;
use grind_cutsat_facts::Fact;
use grind_outside::{List, Memory};
use std::alloc::Global;

// The bounds among the facts, in order.
pub(crate) fn bounds_alone(alloc: Global, facts: &[Fact]) -> Result<List<Fact>, Memory>
    ensures { IfOk result (λ bounds. AreBoundsOf facts.now bounds) }
{
    let mut bounds = List::new(alloc);
    let mut rest = facts;
    while let Some((fact, tail)) = rest.split_first() {
        keep(alloc, fact, &mut bounds)?;
        rest = tail;
    }
    Ok(bounds)
}

// Puts the fact at the end, if it is a bound.
fn keep(alloc: Global, fact: &Fact, bounds: &mut List<Fact>) -> Result<(), Memory>
    ensures { OnOk result (IsKept fact.now bounds.old bounds.new) }
{
    let Claim::AtMost(form) = &fact.claim else {
        return Ok(());
    };
    let _parts = form.parts();
    let _constant = form.constant();
    let claim = fact.claim.copy(alloc)?;
    bounds.push(Fact {
        post: fact.post,
        claim,
    })?;
    Ok(())
}
