//! Whether a theorem is small.
ghost use Rattle.std.specs.Prelude.{◌↔◌, ℕ, List, IsTrue};
ghost use Rattle.grind_grammar.specs.Keeps.{term_of};
ghost use Rattle.grind_annotations.specs.Written.{annotations_of};
ghost use Rattle.grind_theory.specs.Theorems.{IsSmallTheorem};

use grind_annotations::size_of_annots;
use grind_grammar::{Annot, Tree};
use grind_resolution::{size_of, sum_within};
use grind_term_graph::SortId;

/// Whether a theorem has at most 16 variables, and its body and written patterns at most 256 nodes together.
pub(crate) fn is_small(vars: &[SortId], annots: &[Annot], body: &Tree) -> bool
    ensures { (text : List ℕ) → IsTrue result ↔ IsSmallTheorem vars.now (annotations_of text annots.now) (term_of text body.now) }
{
    if vars.len() > 16 {
        return false;
    }
    let limit = 257;
    let own = size_of(body, limit);
    let below = size_of_annots(annots, limit);
    sum_within(own, below, limit) <= 256
}
