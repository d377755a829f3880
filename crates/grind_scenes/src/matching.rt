//! Matches over classes of the nodes of a table.
ghost use Rattle.std.specs.Prelude.{◌≡◌, ◌<◌, length, IfOk};
ghost use Rattle.grind_ematch.specs.Matches.{scene_of, ListsMatches, ListsEachMatch};
ghost use Rattle.grind_scenes.specs.Scenes.{AreClassesOf};

use grind_classes::Classes;
use grind_ematch::{Match, matches};
use grind_outside::{List, Memory};
use grind_schemes::Lemmas;
use grind_term_graph::TermTable;
use std::alloc::Global;

/// The matches of the first theorem, of generation at most 8, over classes of the nodes of the table.
///
/// # Errors
///
/// `Memory` if out of memory.
pub fn first_matches(
    alloc: Global,
    terms: &TermTable,
    classes: &Classes,
    generations: &List<u32>,
    lemmas: &Lemmas,
) -> Result<List<Match>, Memory>
    requires classes { AreClassesOf terms.now.nodes classes.now.lists }
    requires generations { length generations.now ≡ length terms.now.nodes }
    requires theorem { 0 < length lemmas.now.theorems }
    ensures matches { IfOk result (λ list. ListsMatches (scene_of terms.now.nodes classes.now.lists generations.now)
        lemmas.now.theorems 0 8 list) }
    ensures each { IfOk result (λ list. ListsEachMatch (scene_of terms.now.nodes classes.now.lists generations.now)
        lemmas.now.theorems 0 8 list) }
{
    let _count = terms.len();
    let list = matches(alloc, terms, classes, generations, lemmas, 0, 8)?;
    Ok(list)
}
