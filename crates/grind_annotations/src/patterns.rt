//! The patterns that annotations give a theorem.
ghost use Rattle.std.specs.Prelude.{◌≡◌, All, IfOk, IfSome};
ghost use Rattle.std.specs.List.{AllByRecursion};
ghost use Rattle.grind_schemes.specs.Schemes.{IsScheme, IsHeadedByFunction};
ghost use Rattle.grind_schemes.specs.Theorems.{HoldsEach};
ghost use Rattle.grind_grammar.specs.Keeps.{IsPlacedTree, term_of};
ghost use Rattle.grind_resolution.specs.Scopes.{variable_sorts};
ghost use Rattle.grind_resolution.specs.Contexts.{gives_in};
ghost use Rattle.grind_resolution.specs.Sorting.{IsSorted};
ghost use Rattle.grind_annotations.specs.Giving.{StandForEach, Annotates};
ghost use Rattle.grind_annotations.specs.Written.{written, AllWritten, terms_of, annotation_of, annotations_of, IsPlacedAnnot};
ghost use Rattle.grind_annotations.specs.Annotating.{GivesOrNone, ListsOrNone};

use grind_grammar::{Annot, Tree};
use grind_outside::{List, Memory};
use grind_patterns::{Kind, patterns_of};
use grind_resolution::laws::{one_meaning, one_scheme, schemes_are_formed};
use grind_resolution::{Context, resolve};
use grind_schemes::Scheme;
use grind_term_graph::SortId;

// The schemes that terms stand for, in order.
fn written_schemes(context: &Context<'_>, trees: &[Tree]) -> Result<List<Scheme>, Memory>
    requires placed { All (IsPlacedTree context.now.text.now) trees.now }
    requires sorted { All (λ tree. IsSorted (gives_in context.now) (term_of context.now.text.now tree)) trees.now }
    ensures { IfOk result (StandForEach (gives_in context.now) (terms_of context.now.text.now trees.now)) }
{
    let mut schemes = List::new(context.alloc);
    let mut rest = trees;
    while let Some((tree, later)) = rest.split_first() {
        let scheme = resolve(context, tree)?;
        schemes.push(scheme)?;
        rest = later;
    }
    Ok(schemes)
}

// The annotation, with the schemes of the terms that it writes.
fn kind_of(context: &Context<'_>, annot: &Annot) -> Result<Kind, Memory>
    requires placed { IsPlacedAnnot context.now.text.now annot.now }
    requires sorted { AllByRecursion (IsSorted (gives_in context.now)) (written (annotation_of context.now.text.now annot.now)) }
    ensures { IfOk result (Annotates (gives_in context.now) (annotation_of context.now.text.now annot.now)) }
{
    match annot {
        Annot::Left => Ok(Kind::Left),
        Annot::Right => Ok(Kind::Right),
        Annot::Hyps => Ok(Kind::Hyps),
        Annot::Concl => Ok(Kind::Concl),
        Annot::Pattern(trees) => {
            let terms = trees.as_slice();
            let schemes = written_schemes(context, terms)?;
            Ok(Kind::Written(schemes))
        }
    }
}

// The patterns that an annotation gives, or None if it gives none.
fn patterns_of_annot(
    context: &Context<'_>,
    vars: &[SortId],
    body: &Scheme,
    annot: &Annot,
) -> Result<Option<List<Scheme>>, Memory>
    requires placed { IsPlacedAnnot context.now.text.now annot.now }
    requires sorted { AllByRecursion (IsSorted (gives_in context.now)) (written (annotation_of context.now.text.now annot.now)) }
    ensures { IfOk result (GivesOrNone (gives_in context.now) vars.now body.now (annotation_of context.now.text.now annot.now)) }
{
    one_meaning();
    one_scheme();
    let kind = kind_of(context, annot)?;
    let found = patterns_of(context.alloc, vars, body, &kind)?;
    Ok(found)
}

/// The list of patterns that each annotation gives, in order, or None if one of them gives none.
pub fn lists_of_annots(
    context: &Context<'_>,
    vars: &[SortId],
    body: &Scheme,
    annots: &[Annot],
) -> Result<Option<List<List<Scheme>>>, Memory>
    requires placed { All (IsPlacedAnnot context.now.text.now) annots.now }
    requires sorted { AllWritten (IsSorted (gives_in context.now)) (annotations_of context.now.text.now annots.now) }
    requires variables { variable_sorts context.now.scope.now ≡ vars.now }
    requires formed { IsScheme vars.now body.now }
    ensures found { IfOk result (ListsOrNone (gives_in context.now) vars.now body.now (annotations_of context.now.text.now annots.now)) }
    ensures formed { IfOk result (λ found. IfSome found (λ lists. All (All (IsScheme vars.now)) lists)) }
    ensures headed { IfOk result (λ found. IfSome found (λ lists. All (All IsHeadedByFunction) lists)) }
    ensures held { IfOk result (λ found. IfSome found (λ lists. All (HoldsEach vars.now) lists)) }
{
    one_meaning();
    schemes_are_formed();
    let mut lists = List::new(context.alloc);
    let mut rest = annots;
    while let Some((annot, later)) = rest.split_first() {
        let found = patterns_of_annot(context, vars, body, annot)?;
        let Some(patterns) = found else {
            return Ok(None);
        };
        lists.push(patterns)?;
        rest = later;
    }
    Ok(Some(lists))
}
