//! What partial matches have together.
ghost use Rattle.std.specs.Prelude.{ℕ, Option, [], ◌∷◌, IsTrue, IfOk, OnOk, MatchOption};
ghost use Rattle.grind_ematch.specs.Buckets.{bucket_at, HasRoots, HaveRoots};
ghost use Rattle.grind_ematch.specs.Partials.{AreUnion, HasNoUnion, IsUnion, Joins, JoinsOne};

use crate::buckets::{buckets, key_of, root_of};
use crate::partial::Partial;
use crate::slots::Slots;
use grind_outside::{List, Memory};
use grind_term_graph::NodeId;
use indexmap::IndexMap;
use std::alloc::Global;

/// What each two of the partial matches, one of either list, have together. Where both lists are long and share
/// variables, those of one list are sorted by what these stand for.
pub fn joined(
    alloc: Global,
    left: &[Partial],
    right: List<Partial>,
) -> Result<List<Partial>, Memory>
    ensures { IfOk result (λ list. Joins left.now right list) }
{
    let variables = shared(alloc, left, right.as_slice())?;
    if variables.is_empty() {
        let list = joined_each(alloc, left, right.as_slice())?;
        return Ok(list);
    }
    let list = joined_at(alloc, variables.as_slice(), left, right)?;
    Ok(list)
}

// The variables that have a root in each of the partial matches, if both lists are long enough to be sorted.
fn shared(alloc: Global, left: &[Partial], right: &[Partial]) -> Result<List<usize>, Memory>
    ensures left { IfOk result (λ variables. HaveRoots left.now variables) }
    ensures right { IfOk result (λ variables. HaveRoots right.now variables) }
{
    let mut found = List::new(alloc);
    if left.len() < 4 || right.len() < 4 {
        return Ok(found);
    }
    let first = left[0].slots.as_slice();
    for variable in 0..first.len() {
        if have_roots(left, variable) && have_roots(right, variable) {
            found.push(variable)?;
        }
    }
    Ok(found)
}

// Whether the variable has a root in each of the partial matches.
fn have_roots(list: &[Partial], variable: usize) -> bool
    ensures { IsTrue result → HasRoots list.now variable }
{
    for partial in list {
        let Some(_root) = root_of(partial.slots.as_slice(), variable) else {
            return false;
        };
    }
    true
}

// The same by the roots of the variables.
fn joined_at(
    alloc: Global,
    variables: &[usize],
    left: &[Partial],
    right: List<Partial>,
) -> Result<List<Partial>, Memory>
    requires left { HaveRoots left.now variables.now }
    requires right { HaveRoots right variables.now }
    ensures { IfOk result (λ list. Joins left.now right list) }
{
    let sorted = buckets(alloc, variables, right)?;
    let mut found = List::new(alloc);
    for one in left {
        let key = key_of(alloc, one.slots.as_slice(), variables)?;
        join_bucket(alloc, &key, &sorted, one, &mut found)?;
    }
    Ok(found)
}

// Appends what a partial match has together with each of the bucket with that key.
fn join_bucket(
    alloc: Global,
    key: &Slots,
    sorted: &IndexMap<Slots, List<Partial>>,
    one: &Partial,
    found: &mut List<Partial>,
) -> Result<(), Memory>
    ensures { OnOk result (JoinsOne one.now (bucket_at sorted.now.entries key.now) found.old found.new) }
{
    let Some(bucket) = sorted.get(key) else {
        return Ok(());
    };
    join_one(alloc, one, bucket.as_slice(), found)?;
    Ok(())
}

// The same pair by pair.
fn joined_each(alloc: Global, left: &[Partial], right: &[Partial]) -> Result<List<Partial>, Memory>
    ensures { IfOk result (λ list. Joins left.now right.now list) }
{
    let mut found = List::new(alloc);
    for one in left {
        join_one(alloc, one, right, &mut found)?;
    }
    Ok(found)
}

// Appends what a partial match has together with each of the others.
fn join_one(
    alloc: Global,
    one: &Partial,
    right: &[Partial],
    found: &mut List<Partial>,
) -> Result<(), Memory>
    ensures { OnOk result (JoinsOne one.now right.now found.old found.new) }
{
    for other in right {
        join_two(alloc, one, other, found)?;
    }
    Ok(())
}

// Appends what two partial matches have together, if they do.
fn join_two(
    alloc: Global,
    one: &Partial,
    other: &Partial,
    found: &mut List<Partial>,
) -> Result<(), Memory>
    ensures { OnOk result (JoinsOne one.now (other.now ∷ []) found.old found.new) }
{
    let both = union(alloc, one.slots.as_slice(), other.slots.as_slice())?;
    let Some(slots) = both else {
        return Ok(());
    };
    let generation = one.generation.max(other.generation);
    found.push(Partial { slots, generation })?;
    Ok(())
}

// What two lists of slots have together; None where a variable would stand for two classes.
fn union(
    alloc: Global,
    left: &[Option<NodeId>],
    right: &[Option<NodeId>],
) -> Result<Option<Slots>, Memory>
    ensures { IfOk result (λ found. MatchOption found
        (HasNoUnion left.now right.now) (λ both. AreUnion left.now right.now both)) }
{
    let mut both = List::new(alloc);
    let mut rest = left;
    let mut others = right;
    while let Some((one, tail)) = rest.split_first() {
        let Some((other, behind)) = others.split_first() else {
            return Ok(None);
        };
        let Some(slot) = slot_of(*one, *other) else {
            return Ok(None);
        };
        both.push(slot)?;
        rest = tail;
        others = behind;
    }
    if others.is_empty() {
        return Ok(Some(Slots::new(both)));
    }
    Ok(None)
}

// What two slots have together; None where they have different roots.
fn slot_of(one: Option<NodeId>, other: Option<NodeId>) -> Option<Option<NodeId>>
    ensures { MatchOption result ((both : Option ℕ) → ¬ IsUnion one other both) (λ both. IsUnion one other both) }
{
    let Some(root) = one else {
        return Some(other);
    };
    let Some(second) = other else {
        return Some(one);
    };
    if root == second {
        return Some(one);
    }
    None
}
