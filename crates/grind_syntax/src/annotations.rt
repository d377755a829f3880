//! The annotations of a theorem. One with a term deeper than the limit is judged, and not kept.
ghost use Rattle.std.specs.Prelude.{◌≡◌, ℕ, List, Some, None, MatchOption, IfOk, IfSome};
ghost use Rattle.grind_tokens.specs.declared.tokens.Sym.TheVariants as symbols;
ghost use Rattle.grind_grammar.specs.Reading as reading;
ghost use Rattle.grind_syntax.specs.Sources.{ahead, IsPast, Gives, GivesMade, Leaves};
ghost use Rattle.grind_syntax.specs.Levels.{level};
ghost use Rattle.grind_syntax.specs.declared.levels.Level.TheVariants as levels;
ghost use Rattle.grind_syntax.specs.Annotated.{annotation_given, IsPlacedAnnotation, IsPlacedAnnot, annotations_given, ArePlacedAnnots, with_annotation, patterns_of};

use crate::levels::Level;
use crate::names::{any_symbol_at, bytes_of, is_same, symbol_at, word_at};
use crate::source::{Read, Source};
use crate::terms::read_parts;
use crate::trees::listed;
use grind_grammar::Annot;
use grind_outside::{List, Memory};
use grind_tokens::tokens::Sym;

// The place after a word that stands here.
fn keyword_at(source: &Source, at: usize, keyword: &[u8]) -> Option<usize>
    ensures is { MatchOption result (reading.word_at keyword.now (ahead source.now at) ≡ None)
        (λ left. reading.word_at keyword.now (ahead source.now at) ≡ Some (ahead source.now left)) }
    ensures left { IfSome result (λ left. IsPast source.now at left) }
{
    let (name, left) = word_at(source, at)?;
    if is_same(bytes_of(source.text, name), keyword) {
        return Some(left);
    }
    None
}

// Reads what stands after the word of patterns.
fn patterns(source: &Source, room: u8, at: usize) -> Read<Option<Annot>>
    ensures is { IfOk result (GivesMade source.now patterns_of (reading.list_at (level levels.Sum room) symbols.Comma (ahead source.now at))
        (annotation_given source.now.text.now)) }
    ensures left { IfOk result (Leaves (IsPlacedAnnot source.now.text.now) at) }
{
    let Some((parts, left)) = read_parts(source, room, Level::Sum, Sym::Comma, at)? else {
        return Ok(None);
    };
    let Some(trees) = listed(source.alloc, parts)? else {
        return Ok(Some((None, left)));
    };
    Ok(Some((Some(Annot::Pattern(trees)), left)))
}

// Reads an annotation that begins with a symbol.
fn short(source: &Source, sym: Sym, at: usize) -> Option<(Annot, usize)>
    ensures is { Gives source.now (reading.annot_of_symbol sym (ahead source.now at)) (λ annot. annotation_given source.now.text.now (Some annot)) result }
    ensures left { Leaves (IsPlacedAnnotation source.now.text.now) at result }
{
    match sym {
        Sym::Eq => {
            let Some(left) = keyword_at(source, at, b"_".as_slice()) else {
                return Some((Annot::Left, at));
            };
            Some((Annot::Right, left))
        }
        Sym::Arrow => Some((Annot::Hyps, at)),
        Sym::Lt => {
            let left = symbol_at(source, at, Sym::Minus)?;
            Some((Annot::Concl, left))
        }
        _ => None,
    }
}

// Reads an annotation without its brackets.
fn inside(source: &Source, room: u8, at: usize) -> Read<Option<Annot>>
    ensures is { IfOk result (Gives source.now (reading.annot_inside (level levels.Sum room) (ahead source.now at))
        (annotation_given source.now.text.now)) }
    ensures left { IfOk result (Leaves (IsPlacedAnnot source.now.text.now) at) }
{
    if let Some((sym, after)) = any_symbol_at(source, at) {
        let Some((annot, left)) = short(source, sym, after) else {
            return Ok(None);
        };
        return Ok(Some((Some(annot), left)));
    }
    let Some((name, after)) = word_at(source, at) else {
        return Ok(None);
    };
    if !is_same(bytes_of(source.text, name), b"pattern".as_slice()) {
        return Ok(None);
    }
    let Some((annot, left)) = patterns(source, room, after)? else {
        return Ok(None);
    };
    Ok(Some((annot, left)))
}

// Reads an annotation after its left bracket, and the right bracket.
fn bracketed(source: &Source, room: u8, at: usize) -> Read<Option<Annot>>
    ensures is { IfOk result (Gives source.now
        (reading.closed symbols.RightSquare (reading.annot_inside (level levels.Sum room) (ahead source.now at)))
        (annotation_given source.now.text.now)) }
    ensures left { IfOk result (Leaves (IsPlacedAnnot source.now.text.now) at) }
{
    let Some((annot, after)) = inside(source, room, at)? else {
        return Ok(None);
    };
    let Some(left) = symbol_at(source, after, Sym::RightSquare) else {
        return Ok(None);
    };
    Ok(Some((annot, left)))
}

// The annotations with one more after them, if it is kept.
fn with_annot(
    annots: Option<List<Annot>>,
    annot: Option<Annot>,
) -> Result<Option<List<Annot>>, Memory>
    ensures is { IfOk result (λ more. (text : List ℕ) → annotations_given text more
        ≡ with_annotation (annotations_given text annots) (annotation_given text annot)) }
    ensures placed { IfOk result (λ more. (text : List ℕ) → ArePlacedAnnots text annots → IsPlacedAnnot text annot → ArePlacedAnnots text more) }
{
    let Some(annots) = annots else {
        return Ok(None);
    };
    let Some(annot) = annot else {
        return Ok(None);
    };
    let mut more = annots;
    more.push(annot)?;
    Ok(Some(more))
}

// Reads annotations, as many as there are.
pub(crate) fn annotations(source: &Source, room: u8, at: usize) -> Read<Option<List<Annot>>>
    ensures is { IfOk result (GivesMade source.now reading.all_of (reading.annots (level levels.Sum room) (ahead source.now at))
        (annotations_given source.now.text.now)) }
    ensures left { IfOk result (Leaves (ArePlacedAnnots source.now.text.now) at) }
{
    let mut annots = Some(List::new(source.alloc));
    let mut rest = at;
    while let Some(mid) = symbol_at(source, rest, Sym::LeftSquare) {
        let Some((annot, left)) = bracketed(source, room, mid)? else {
            return Ok(None);
        };
        annots = with_annot(annots, annot)?;
        rest = left;
    }
    Ok(Some((annots, rest)))
}
