//! Theorems and goals, of parts that are kept where they are no deeper than the limit.
ghost use Rattle.std.specs.Prelude.{◌≡◌, ℕ, List, All, map};
ghost use Rattle.grind_grammar.specs.Keeps.{IsPlaced, name_of};
ghost use Rattle.grind_grammar.specs.Reading as reading;
ghost use Rattle.grind_syntax.specs.Places.{bound_of, IsPlacedBound};
ghost use Rattle.grind_syntax.specs.Built.{term_given, IsPlacedBuilt, AreTreesPlaced, trees_given};
ghost use Rattle.grind_syntax.specs.Annotated.{annotations_given, ArePlacedAnnots};
ghost use Rattle.grind_syntax.specs.KeptDeclarations.{declaration_given, IsPlacedGiven};

use crate::built::Built;
use grind_grammar::{Annot, Binder, Decl, Name, Tree};
use grind_outside::List;

// The theorem, if its annotations and its body were kept.
pub(crate) fn theorem_with(
    name: Name,
    binders: List<Binder>,
    annots: Option<List<Annot>>,
    body: Option<Built>,
) -> Option<Decl>
    ensures is { (text : List ℕ) → declaration_given text result
        ≡ reading.theorem_with (name_of text name) (map (bound_of text) binders) (annotations_given text annots) (term_given text body) }
    ensures placed { (text : List ℕ) → IsPlaced text name → All (IsPlacedBound text) binders → ArePlacedAnnots text annots
        → IsPlacedBuilt text body → IsPlacedGiven text result }
{
    let Some(annots) = annots else {
        return None;
    };
    let Some(body) = body else {
        return None;
    };
    Some(Decl::Theorem {
        name,
        binders,
        annots,
        body: body.tree,
    })
}

// The goal, if its hypotheses and its conclusion were kept.
pub(crate) fn goal_with(
    name: Name,
    binders: List<Binder>,
    hyps: Option<List<Tree>>,
    show: Option<Built>,
) -> Option<Decl>
    ensures is { (text : List ℕ) → declaration_given text result
        ≡ reading.goal_with (name_of text name) (map (bound_of text) binders) (trees_given text hyps) (term_given text show) }
    ensures placed { (text : List ℕ) → IsPlaced text name → All (IsPlacedBound text) binders → AreTreesPlaced text hyps
        → IsPlacedBuilt text show → IsPlacedGiven text result }
{
    let Some(hyps) = hyps else {
        return None;
    };
    let Some(show) = show else {
        return None;
    };
    Some(Decl::Goal {
        name,
        binders,
        hyps,
        show: show.tree,
    })
}
