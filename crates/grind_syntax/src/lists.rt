//! Lists of sorts and of bound variables.
ghost use Rattle.std.specs.Prelude.{◌≡◌, ◌≤◌, ℕ, List, map, All, IfOk};
ghost use Rattle.grind_tokens.specs.declared.tokens.Sym.TheVariants as symbols;
ghost use Rattle.grind_grammar.specs.Grammar.{joined};
ghost use Rattle.grind_grammar.specs.Keeps.{IsPlaced, name_of};
ghost use Rattle.grind_grammar.specs.Reading as reading;
ghost use Rattle.grind_syntax.specs.Places.{bound_of, IsPlacedBound};
ghost use Rattle.grind_syntax.specs.Sources.{ahead, Gives, GivesMade, Leaves};

use crate::names::{name_at, sort_at, symbol_at};
use crate::source::{Read, Source};
use grind_grammar::{Binder, Name};
use grind_outside::{List, Memory};
use grind_tokens::tokens::Sym;
use std::alloc::Global;

// Reads sorts with commas between them.
fn sorts(source: &Source, at: usize) -> Read<List<Name>>
    ensures is { IfOk result (Gives source.now (reading.list_at reading.sort_at symbols.Comma (ahead source.now at)) (map (name_of source.now.text.now))) }
    ensures left { IfOk result (Leaves (All (IsPlaced source.now.text.now)) at) }
{
    let mut sorts = List::new(source.alloc);
    let mut rest = at;
    while let Some((sort, after)) = sort_at(source, rest) {
        sorts.push(sort)?;
        let Some(left) = symbol_at(source, after, Sym::Comma) else {
            return Ok(Some((sorts, after)));
        };
        rest = left;
    }
    Ok(None)
}

// Reads the sorts of a function's arguments, none where no parenthesis stands.
pub(crate) fn arguments(source: &Source, at: usize) -> Read<List<Name>>
    ensures is { IfOk result (Gives source.now (reading.in_parentheses reading.sort_at (ahead source.now at)) (map (name_of source.now.text.now))) }
    ensures left { IfOk result (Leaves (All (IsPlaced source.now.text.now)) at) }
{
    let Some(inside) = symbol_at(source, at, Sym::LeftParen) else {
        return Ok(Some((List::new(source.alloc), at)));
    };
    let Some((sorts, after)) = sorts(source, inside)? else {
        return Ok(None);
    };
    let Some(left) = symbol_at(source, after, Sym::RightParen) else {
        return Ok(None);
    };
    Ok(Some((sorts, left)))
}

// Reads the names here, as many as there are.
fn names(source: &Source, at: usize) -> Result<(List<Name>, usize), Memory>
    ensures names { IfOk result (λ found. (reading.names (ahead source.now at)).0 ≡ map (name_of source.now.text.now) found.0) }
    ensures rest { IfOk result (λ found. (reading.names (ahead source.now at)).1 ≡ ahead source.now found.1) }
    ensures left { IfOk result (λ found. All (IsPlaced source.now.text.now) found.0 × (at ≤ found.1)) }
{
    let mut names = List::new(source.alloc);
    let mut rest = at;
    while let Some((name, left)) = name_at(source, rest) {
        names.push(name)?;
        rest = left;
    }
    Ok((names, rest))
}

// Binds each name to the sort.
fn bind(alloc: Global, names: &[Name], sort: Name) -> Result<List<Binder>, Memory>
    ensures is { IfOk result (λ binders. (text : List ℕ) → map (bound_of text) binders
        ≡ reading.bounds_of (map (name_of text) names.now) (name_of text sort)) }
    ensures placed { IfOk result (λ binders. (text : List ℕ) → IsPlaced text sort → All (IsPlaced text) names.now
        → All (IsPlacedBound text) binders) }
{
    let mut binders = List::new(alloc);
    let mut rest = names;
    while let Some((name, tail)) = rest.split_first() {
        binders.push(Binder { name: *name, sort })?;
        rest = tail;
    }
    Ok(binders)
}

// Reads names, a colon and their sort.
fn group(source: &Source, at: usize) -> Read<List<Binder>>
    ensures is { IfOk result (Gives source.now (reading.group (ahead source.now at)) (map (bound_of source.now.text.now))) }
    ensures left { IfOk result (Leaves (All (IsPlacedBound source.now.text.now)) at) }
{
    let (names, rest) = names(source, at)?;
    let Some(after) = symbol_at(source, rest, Sym::Colon) else {
        return Ok(None);
    };
    if names.is_empty() {
        return Ok(None);
    }
    let Some((sort, left)) = sort_at(source, after) else {
        return Ok(None);
    };
    let binders = bind(source.alloc, names.as_slice(), sort)?;
    Ok(Some((binders, left)))
}

// Reads groups with commas between them, and puts what they bind into one list.
fn groups(source: &Source, at: usize) -> Read<List<Binder>>
    ensures is { IfOk result (GivesMade source.now joined (reading.list_at reading.group symbols.Comma (ahead source.now at))
        (map (bound_of source.now.text.now))) }
    ensures left { IfOk result (Leaves (All (IsPlacedBound source.now.text.now)) at) }
{
    let mut binders = List::new(source.alloc);
    let mut rest = at;
    while let Some((bound, after)) = group(source, rest)? {
        binders.extend(bound.as_slice())?;
        let Some(left) = symbol_at(source, after, Sym::Comma) else {
            return Ok(Some((binders, after)));
        };
        rest = left;
    }
    Ok(None)
}

// Reads the variables of a theorem or the constants of a goal, none where no parenthesis stands.
pub(crate) fn binders(source: &Source, at: usize) -> Read<List<Binder>>
    ensures is { IfOk result (Gives source.now (reading.binders (ahead source.now at)) (map (bound_of source.now.text.now))) }
    ensures left { IfOk result (Leaves (All (IsPlacedBound source.now.text.now)) at) }
{
    let Some(inside) = symbol_at(source, at, Sym::LeftParen) else {
        return Ok(Some((List::new(source.alloc), at)));
    };
    let Some((bound, after)) = groups(source, inside)? else {
        return Ok(None);
    };
    let Some(left) = symbol_at(source, after, Sym::RightParen) else {
        return Ok(None);
    };
    Ok(Some((bound, left)))
}
