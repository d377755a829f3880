//! Partial matches without those that another makes needless.
ghost use Rattle.std.specs.Prelude.{IfOk, OnOk};
ghost use Rattle.grind_ematch.specs.Partials.{Thins};
ghost use Rattle.grind_ematch.specs.Thinning.{KeepsLeast, HasLeast, AreListed};

use crate::partial::Partial;
use crate::slots::Slots;
use grind_outside::{List, Memory};
use indexmap::IndexMap;
use std::alloc::Global;

/// Of the partial matches with the same slots one of the least generation.
pub fn thinned(alloc: Global, list: List<Partial>) -> Result<List<Partial>, Memory>
    ensures { IfOk result (λ thin. Thins list thin) }
{
    if list.len() < 2 {
        return Ok(list);
    }
    let least = least_of(alloc, list)?;
    let thin = listed(alloc, least)?;
    Ok(thin)
}

// The least generation of each list of slots.
fn least_of(alloc: Global, list: List<Partial>) -> Result<IndexMap<Slots, u32>, Memory>
    ensures { IfOk result (λ least. HasLeast list least.entries) }
{
    let mut least = IndexMap::new(alloc);
    let mut rest = list;
    while let Some(partial) = rest.pop() {
        keep(&mut least, partial)?;
    }
    Ok(least)
}

// Puts a partial match into the table, where of its slots the lesser generation stays.
fn keep(least: &mut IndexMap<Slots, u32>, partial: Partial) -> Result<(), Memory>
    ensures { OnOk result (KeepsLeast least.old.entries partial.slots partial.generation least.new.entries) }
{
    let Partial { slots, generation } = partial;
    let known = least.get(&slots).copied().unwrap_or(generation);
    least.insert(slots, known.min(generation))?;
    Ok(())
}

// The entries of the table, as partial matches.
fn listed(alloc: Global, least: IndexMap<Slots, u32>) -> Result<List<Partial>, Memory>
    ensures { IfOk result (λ list. AreListed least.entries list) }
{
    let mut found = List::new(alloc);
    let mut rest = least;
    while let Some((slots, generation)) = rest.pop() {
        found.push(Partial { slots, generation })?;
    }
    Ok(found)
}
