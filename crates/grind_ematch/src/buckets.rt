//! Partial matches by what some variables stand for.
ghost use Rattle.std.specs.Prelude.{◌≡◌, IfOk, OnOk};
ghost use Rattle.grind_ematch.specs.Buckets.{root_at, key_at, bucket_at, TakesBucket, PutsInBucket, AreBuckets};

use crate::partial::Partial;
use crate::slots::Slots;
use grind_outside::{List, Memory};
use grind_term_graph::NodeId;
use indexmap::IndexMap;
use std::alloc::Global;

// The root in the slot of a variable, if there is one.
pub(crate) fn root_of(slots: &[Option<NodeId>], variable: usize) -> Option<NodeId>
    ensures { result ≡ root_at slots.now variable }
{
    match slots.get(variable) {
        Some(root) => *root,
        None => None,
    }
}

// The roots in the slots of the variables.
pub(crate) fn key_of(
    alloc: Global,
    slots: &[Option<NodeId>],
    variables: &[usize],
) -> Result<Slots, Memory>
    ensures { IfOk result (λ key. key ≡ key_at slots.now variables.now) }
{
    let mut key = List::new(alloc);
    for variable in variables {
        key.push(root_of(slots, *variable))?;
    }
    Ok(Slots::new(key))
}

/// Partial matches in buckets, by the roots in the slots of the variables.
pub fn buckets(
    alloc: Global,
    variables: &[usize],
    list: List<Partial>,
) -> Result<IndexMap<Slots, List<Partial>>, Memory>
    ensures { IfOk result (λ found. AreBuckets variables.now list found.entries) }
{
    let mut found = IndexMap::new(alloc);
    let mut rest = list;
    while let Some(partial) = rest.pop() {
        put(alloc, variables, &mut found, partial)?;
    }
    Ok(found)
}

// Puts a partial match into its bucket.
fn put(
    alloc: Global,
    variables: &[usize],
    found: &mut IndexMap<Slots, List<Partial>>,
    partial: Partial,
) -> Result<(), Memory>
    ensures { OnOk result (PutsInBucket variables.now found.old.entries partial found.new.entries) }
{
    let key = key_of(alloc, partial.slots.as_slice(), variables)?;
    let mut bucket = taken(alloc, found, &key);
    bucket.push(partial)?;
    found.insert(key, bucket)?;
    Ok(())
}

// Takes the bucket of a key out.
fn taken(alloc: Global, found: &mut IndexMap<Slots, List<Partial>>, key: &Slots) -> List<Partial>
    ensures value { result ≡ bucket_at found.old.entries key.now }
    ensures taken { TakesBucket key.now found.old.entries found.new.entries }
{
    match found.swap_remove(key) {
        Some(bucket) => bucket,
        None => List::new(alloc),
    }
}
