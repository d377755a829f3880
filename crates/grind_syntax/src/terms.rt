//! Formulas and terms. Of a term deeper than the limit no tree is built, and the rest is still judged.
ghost use Rattle.std.specs.Prelude.{◌≡◌, ◌≤◌, ℕ, suc, List, [], Some, length, IfOk};
ghost use Rattle.grind_tokens.specs.declared.tokens.Sym.TheVariants as symbols;
ghost use Rattle.grind_grammar.specs.Keeps.{IsPlaced, name_of};
ghost use Rattle.grind_grammar.specs.Reading as reading;
ghost use Rattle.grind_grammar.specs.Files.{depth_limit};
ghost use Rattle.grind_syntax.specs.Sources.{ahead, Gives, GivesMade, Leaves};
ghost use Rattle.grind_syntax.specs.Levels.{level, ops_of};
ghost use Rattle.grind_syntax.specs.Built.{term_given, IsPlacedBuilt, terms_given, IsPlacedParts, Signed};

use crate::built::Built;
use crate::levels::{Level, MINUS, NOT, Sign, op_at};
use crate::names::{bytes_of, is_name, is_same, number_at, symbol_at, word_at};
use crate::parts::Parts;
use crate::sides::Side;
use crate::source::{Read, Source};
use crate::trees::{applied, fit, joined, two, with_part, with_signs};
use grind_grammar::{Name, Tree};
use grind_outside::List;
use grind_tokens::tokens::Sym;
use std::alloc::Global;

// Counts the signs here.
fn signs(source: &Source, sym: Sym, at: usize) -> (usize, usize)
    ensures is { Signed sym (ahead source.now at) result.0 (ahead source.now result.1) }
    ensures left { at ≤ result.1 }
{
    let mut count = 0;
    let mut rest = at;
    while let Some(left) = symbol_at(source, rest, sym) {
        count += 1;
        rest = left;
    }
    (count, rest)
}

// Reads a term of a level.
#[cycle(terms)]
pub(crate) fn read_level(source: &Source, room: u8, of: Level, at: usize) -> Read<Option<Built>>
    ensures is { IfOk result (Gives source.now (level of room (ahead source.now at)) (term_given source.now.text.now)) }
    ensures left { IfOk result (Leaves (IsPlacedBuilt source.now.text.now) at) }
{
    match of {
        Level::Atom => atom(source, room, at),
        Level::Minus => signed(source, room, Level::Atom, MINUS, at),
        Level::Product => left_joined(source, room, Level::Minus, Level::Product, at),
        Level::Sum => left_joined(source, room, Level::Product, Level::Sum, at),
        Level::Relation => once(source, room, Level::Sum, Level::Relation, at),
        Level::Negation => signed(source, room, Level::Relation, NOT, at),
        Level::Conj => left_joined(source, room, Level::Negation, Level::Conj, at),
        Level::Disj => left_joined(source, room, Level::Conj, Level::Disj, at),
        Level::Impl => right_joined(source, room, Level::Disj, Level::Impl, at),
        Level::Formula => once(source, room, Level::Impl, Level::Formula, at),
    }
}

// Reads signs, and a term of a level after them.
#[cycle(terms)]
fn signed(source: &Source, room: u8, part: Level, sign: Sign, at: usize) -> Read<Option<Built>>
    ensures is { IfOk result (Gives source.now (reading.signed depth_limit sign.sym sign.op (level part room) (ahead source.now at))
        (term_given source.now.text.now)) }
    ensures left { IfOk result (Leaves (IsPlacedBuilt source.now.text.now) at) }
{
    let (count, rest) = signs(source, sign.sym, at);
    let Some((term, left)) = read_level(source, room, part, rest)? else {
        return Ok(None);
    };
    let whole = with_signs(source.alloc, sign.op, count, term)?;
    Ok(Some((whole, left)))
}

// Reads terms of a level with operators between them, joined to the left.
#[cycle(terms)]
fn left_joined(source: &Source, room: u8, part: Level, ops: Level, at: usize) -> Read<Option<Built>>
    ensures is { IfOk result (Gives source.now (reading.left_joined depth_limit (ops_of ops) (level part room) (ahead source.now at))
        (term_given source.now.text.now)) }
    ensures left { IfOk result (Leaves (IsPlacedBuilt source.now.text.now) at) }
{
    let Some((first, after)) = read_level(source, room, part, at)? else {
        return Ok(None);
    };
    let mut whole = first;
    let mut rest = after;
    while let Some((op, mid)) = op_at(source, ops, rest) {
        let Some((next, left)) = read_level(source, room, part, mid)? else {
            return Ok(None);
        };
        whole = two(source.alloc, op, whole, next)?;
        rest = left;
    }
    Ok(Some((whole, rest)))
}

// Reads terms of a level with operators between them, joined to the right.
#[cycle(terms)]
fn right_joined(
    source: &Source,
    room: u8,
    part: Level,
    ops: Level,
    at: usize,
) -> Read<Option<Built>>
    ensures is { IfOk result (Gives source.now
        (reading.right_chain depth_limit (ops_of ops) (level part room) (suc (length (ahead source.now at))) (ahead source.now at))
        (term_given source.now.text.now)) }
    ensures left { IfOk result (Leaves (IsPlacedBuilt source.now.text.now) at) }
{
    let mut sides = List::new(source.alloc);
    let mut rest = at;
    while let Some((side, after)) = read_level(source, room, part, rest)? {
        let Some((op, left)) = op_at(source, ops, after) else {
            let whole = joined(source.alloc, sides, side)?;
            return Ok(Some((whole, after)));
        };
        sides.push(Side { side, op })?;
        rest = left;
    }
    Ok(None)
}

// Reads a term of a level, and a second one after an operator.
#[cycle(terms)]
fn once(source: &Source, room: u8, part: Level, ops: Level, at: usize) -> Read<Option<Built>>
    ensures is { IfOk result (Gives source.now
        (reading.once depth_limit (ops_of ops) (level part room) (level part room) (ahead source.now at))
        (term_given source.now.text.now)) }
    ensures left { IfOk result (Leaves (IsPlacedBuilt source.now.text.now) at) }
{
    let Some((first, after)) = read_level(source, room, part, at)? else {
        return Ok(None);
    };
    let Some((op, mid)) = op_at(source, ops, after) else {
        return Ok(Some((first, after)));
    };
    let Some((second, left)) = read_level(source, room, part, mid)? else {
        return Ok(None);
    };
    let whole = two(source.alloc, op, first, second)?;
    Ok(Some((whole, left)))
}

// Reads a number, a formula in parentheses, or a word with what belongs to it.
#[cycle(terms)]
fn atom(source: &Source, room: u8, at: usize) -> Read<Option<Built>>
    ensures is { IfOk result (Gives source.now (reading.atom depth_limit (reading.formula depth_limit room) (ahead source.now at))
        (term_given source.now.text.now)) }
    ensures left { IfOk result (Leaves (IsPlacedBuilt source.now.text.now) at) }
{
    if let Some((value, left)) = number_at(source, at) {
        return Ok(Some((fit(Tree::Number(value), 1), left)));
    }
    if let Some((name, left)) = word_at(source, at) {
        let answer = word(source, room, name, left)?;
        return Ok(answer);
    }
    let Some(mid) = symbol_at(source, at, Sym::LeftParen) else {
        return Ok(None);
    };
    let answer = inside(source, room, mid)?;
    Ok(answer)
}

// Reads a formula and the right parenthesis after it.
#[cycle(terms)]
fn inside(source: &Source, room: u8, at: usize) -> Read<Option<Built>>
    ensures is { IfOk result (Gives source.now (reading.closed symbols.RightParen (reading.formula depth_limit room (ahead source.now at)))
        (term_given source.now.text.now)) }
    ensures left { IfOk result (Leaves (IsPlacedBuilt source.now.text.now) at) }
{
    if room == 0 {
        return Ok(None);
    }
    let Some((term, after)) = read_level(source, room - 1, Level::Formula, at)? else {
        return Ok(None);
    };
    let Some(left) = symbol_at(source, after, Sym::RightParen) else {
        return Ok(None);
    };
    Ok(Some((term, left)))
}

// Reads what belongs to a word: nothing, or its parts in parentheses.
#[cycle(terms)]
fn word(source: &Source, room: u8, name: Name, at: usize) -> Read<Option<Built>>
    requires { IsPlaced source.now.text.now name }
    ensures is { IfOk result (Gives source.now
        (reading.word_atom depth_limit (reading.formula depth_limit room) (name_of source.now.text.now name) (ahead source.now at))
        (term_given source.now.text.now)) }
    ensures left { IfOk result (Leaves (IsPlacedBuilt source.now.text.now) at) }
{
    let bytes = bytes_of(source.text, name);
    if is_same(bytes, b"true".as_slice()) {
        return Ok(Some((fit(Tree::True, 1), at)));
    }
    if is_same(bytes, b"false".as_slice()) {
        return Ok(Some((fit(Tree::False, 1), at)));
    }
    if !is_name(bytes) {
        return Ok(None);
    }
    let Some(mid) = symbol_at(source, at, Sym::LeftParen) else {
        return Ok(Some((applied(name, no_parts(source.alloc)), at)));
    };
    let Some((parts, left)) = inside_parts(source, room, mid)? else {
        return Ok(None);
    };
    Ok(Some((applied(name, parts), left)))
}

// No parts.
fn no_parts(alloc: Global) -> Parts
    ensures { (text : List ℕ) → (terms_given text result ≡ Some []) × IsPlacedParts text result }
{
    Parts {
        trees: Vec::new(alloc),
        depth: 0,
        complete: true,
    }
}

// Reads formulas with commas between them, and the right parenthesis after them.
#[cycle(terms)]
fn inside_parts(source: &Source, room: u8, at: usize) -> Read<Parts>
    ensures is { IfOk result (GivesMade source.now reading.all_of
        (reading.closed symbols.RightParen (reading.list_at (reading.formula depth_limit room) symbols.Comma (ahead source.now at)))
        (terms_given source.now.text.now)) }
    ensures left { IfOk result (Leaves (IsPlacedParts source.now.text.now) at) }
{
    if room == 0 {
        return Ok(None);
    }
    let Some((parts, after)) = read_parts(source, room - 1, Level::Formula, Sym::Comma, at)? else {
        return Ok(None);
    };
    let Some(left) = symbol_at(source, after, Sym::RightParen) else {
        return Ok(None);
    };
    Ok(Some((parts, left)))
}

// Reads terms of a level with separators between them.
#[cycle(terms)]
pub(crate) fn read_parts(
    source: &Source,
    room: u8,
    of: Level,
    separator: Sym,
    at: usize,
) -> Read<Parts>
    ensures is { IfOk result (GivesMade source.now reading.all_of (reading.list_at (level of room) separator (ahead source.now at))
        (terms_given source.now.text.now)) }
    ensures left { IfOk result (Leaves (IsPlacedParts source.now.text.now) at) }
{
    let mut parts = no_parts(source.alloc);
    let mut rest = at;
    while let Some((part, after)) = read_level(source, room, of, rest)? {
        parts = with_part(parts, part)?;
        let Some(left) = symbol_at(source, after, separator) else {
            return Ok(Some((parts, after)));
        };
        rest = left;
    }
    Ok(None)
}
