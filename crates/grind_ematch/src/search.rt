//! The matches of a theorem.
ghost use Rattle.std.specs.Prelude.{◌≡◌, ◌<◌, ◌++◌, ◌∷◌, [], Some, All, Contains, length, map, slice_get, IfOk, OnOk, ℕ};
ghost use Rattle.grind_ematch.specs.Matches.{scene_of, IsScene, ListsMatches, ListsEachMatch};
ghost use Rattle.grind_ematch.specs.Partials.{AreBound, AreMatchesOf, ListsAllOfOne};
ghost use Rattle.grind_ematch.specs.declared.partial.Partial.{Partial as Found};

use crate::found::Match;
use crate::partial::Partial;
use crate::patterns::ways;
use crate::query::Query;
use grind_classes::Classes;
use grind_outside::{List, Memory};
use grind_schemes::Lemmas;
use grind_term_graph::{NodeId, TermTable};
use std::alloc::Global;

/// The matches of the theorem of a number, of generation at most `most`: each of the list is one, and each one is up
/// to class in the list, where it has no greater generation.
pub fn matches(
    alloc: Global,
    terms: &TermTable,
    classes: &Classes,
    generations: &List<u32>,
    lemmas: &Lemmas,
    theorem: u32,
    most: u32,
) -> Result<List<Match>, Memory>
    requires scene { IsScene (scene_of terms.now.nodes classes.now.lists generations.now) }
    requires range { theorem < length lemmas.now.theorems }
    ensures matches { IfOk result (λ list. ListsMatches (scene_of terms.now.nodes classes.now.lists generations.now)
        lemmas.now.theorems theorem most list) }
    ensures each { IfOk result (λ list. ListsEachMatch (scene_of terms.now.nodes classes.now.lists generations.now)
        lemmas.now.theorems theorem most list) }
{
    let chosen = &lemmas.theorems.as_slice()[theorem as usize];
    let query = Query::new(
        terms,
        classes,
        generations.as_slice(),
        chosen.vars.as_slice(),
        most,
    );
    let list = ways(alloc, &query, chosen)?;
    let found = matches_of(alloc, theorem, list)?;
    Ok(found)
}

// The matches that partial matches without empty slots are.
fn matches_of(alloc: Global, theorem: u32, list: List<Partial>) -> Result<List<Match>, Memory>
    requires { (partial : Found) → Contains list partial → AreBound partial.slots }
    ensures { IfOk result (λ found. AreMatchesOf theorem list found) }
{
    let mut found = List::new(alloc);
    for partial in list.as_slice() {
        let subst = subst_of(alloc, partial.slots.as_slice())?;
        found.push(Match {
            theorem,
            subst,
            generation: partial.generation,
        })?;
    }
    Ok(found)
}

// The roots of slots of which none is empty.
fn subst_of(alloc: Global, slots: &[Option<NodeId>]) -> Result<List<NodeId>, Memory>
    requires { AreBound slots.now }
    ensures { IfOk result (λ subst. map Some subst ≡ slots.now) }
{
    let mut subst = List::new(alloc);
    for slot in slots {
        subst.push(slot.unwrap())?;
    }
    Ok(subst)
}
