//! How many nodes the terms that annotations write have.
ghost use Rattle.std.specs.Prelude.{◌≡◌, ◌≤◌, ℕ, List, min};
ghost use Rattle.grind_annotations.specs.Written.{terms_of, annotation_of, annotations_of, written, sizes, written_sizes};

use grind_grammar::{Annot, Tree};
use grind_resolution::{size_of, sum_within};

// How many nodes the terms have together, at most the limit.
fn size_of_trees(trees: &[Tree], limit: u32) -> u32
    ensures value { (text : List ℕ) → result ≡ min (sizes (terms_of text trees.now)) limit }
    ensures within { result ≤ limit }
{
    let mut total = 0;
    let mut rest = trees;
    while let Some((tree, later)) = rest.split_first() {
        let own = size_of(tree, limit);
        let next = sum_within(total, own, limit);
        total = next;
        rest = later;
    }
    total
}

// How many nodes the terms that an annotation writes have together, at most the limit.
fn size_of_annot(annot: &Annot, limit: u32) -> u32
    ensures value { (text : List ℕ) → result ≡ min (sizes (written (annotation_of text annot.now))) limit }
    ensures within { result ≤ limit }
{
    match annot {
        Annot::Left => 0,
        Annot::Right => 0,
        Annot::Hyps => 0,
        Annot::Concl => 0,
        Annot::Pattern(trees) => {
            let terms = trees.as_slice();
            size_of_trees(terms, limit)
        }
    }
}

/// How many nodes the terms that the annotations write have together, at most the limit.
pub fn size_of_annots(annots: &[Annot], limit: u32) -> u32
    ensures value { (text : List ℕ) → result ≡ min (written_sizes (annotations_of text annots.now)) limit }
    ensures within { result ≤ limit }
{
    let mut total = 0;
    let mut rest = annots;
    while let Some((annot, later)) = rest.split_first() {
        let own = size_of_annot(annot, limit);
        let next = sum_within(total, own, limit);
        total = next;
        rest = later;
    }
    total
}
