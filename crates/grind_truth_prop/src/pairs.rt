//! Where pairs stand in a list.
ghost use Rattle.std.specs.Prelude.{◌≡◌, ◌<◌, ◌^◌, ◌↔◌, Contains, length, IfOk, IsTrue};
ghost use Rattle.std.specs.List.{AllZip};
ghost use Rattle.indexmap.specs.IndexMap.{get};
ghost use Rattle.grind_classes.specs.Classes.{IsActive, IsPartition};
ghost use Rattle.grind_truth_prop.specs.Given.{Fits};
ghost use Rattle.grind_truth_prop.specs.Pairs.{couple_eq, Finds, FindsParted, AreRoots};

use crate::types::{Couple, Known};
use grind_classes::Classes;
use grind_outside::{List, Memory};
use indexmap::IndexMap;
use std::alloc::Global;

/// The place of each pair of the list. Of a pair that stands there twice it is the last one.
pub(crate) fn places_of(alloc: Global, pairs: &[Couple]) -> Result<IndexMap<Couple, u32>, Memory>
    requires { length pairs.now < 2 ^ 32 }
    ensures { IfOk result (λ places. Finds (λ pair. get couple_eq places pair) pairs.now) }
{
    let mut places = IndexMap::new(alloc);
    for i in 0..pairs.len() {
        places.insert(pairs[i], i as u32)?;
    }
    Ok(places)
}

/// The place of a pair, if it stands in the list.
pub(crate) fn place_of(places: &IndexMap<Couple, u32>, pair: &Couple) -> Option<u32>
    ensures { result ≡ get couple_eq places.now pair.now }
{
    places.get(pair).copied()
}

/// Whether a pair stands in the list whose places these are.
pub(crate) fn stands_in(places: &IndexMap<Couple, u32>, _pairs: &[Couple], pair: &Couple) -> bool
    requires { Finds (λ pair. get couple_eq places.now pair) _pairs.now }
    ensures { IsTrue result ↔ Contains _pairs.now pair.now }
{
    match place_of(places, pair) {
        Some(_) => true,
        None => false,
    }
}

/// The roots of the two nodes of each pair.
pub(crate) fn roots_of(
    alloc: Global,
    known: &Known,
    classes: &Classes,
) -> Result<List<Couple>, Memory>
    requires { Fits known.now classes.now.lists }
    ensures { IfOk result (λ roots. AllZip (AreRoots classes.now.lists) known.now.apart roots) }
{
    let mut roots = List::new(alloc);
    for pair in known.apart.as_slice() {
        roots.push(roots_of_pair(classes, pair))?;
    }
    Ok(roots)
}

/// The places of different nodes, by their roots.
pub(crate) fn parted_places(
    alloc: Global,
    known: &Known,
    classes: &Classes,
) -> Result<IndexMap<Couple, u32>, Memory>
    requires fits { Fits known.now classes.now.lists }
    requires partition { IsPartition classes.now.lists }
    ensures { IfOk result (λ places. FindsParted known.now classes.now.lists (λ pair. get couple_eq places pair)) }
{
    let roots = roots_of(alloc, known, classes)?;
    let places = places_of(alloc, roots.as_slice())?;
    Ok(places)
}

/// The roots of the two.
pub(crate) fn roots_of_pair(classes: &Classes, pair: &Couple) -> Couple
    requires left { IsActive classes.now.lists pair.now.left }
    requires right { IsActive classes.now.lists pair.now.right }
    ensures { AreRoots classes.now.lists pair.now result }
{
    Couple {
        left: classes.root(pair.left),
        right: classes.root(pair.right),
    }
}
