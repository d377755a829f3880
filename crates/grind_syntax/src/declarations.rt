//! Declarations, without the dot after them. One with a term deeper than the limit is judged, and not kept.
ghost use Rattle.std.specs.Prelude.{map, IfOk};
ghost use Rattle.grind_grammar.specs.Keeps.{IsPlaced, name_of};
ghost use Rattle.grind_grammar.specs.Reading as reading;
ghost use Rattle.grind_grammar.specs.Files.{depth_limit};
ghost use Rattle.grind_syntax.specs.Sources.{ahead, Gives, GivesMade, Leaves};
ghost use Rattle.grind_syntax.specs.Levels.{level};
ghost use Rattle.grind_syntax.specs.declared.levels.Level.TheVariants as levels;
ghost use Rattle.grind_syntax.specs.Built.{AreTreesPlaced, trees_given};
ghost use Rattle.grind_syntax.specs.KeptDeclarations.{declaration_given, IsPlacedGiven};

use crate::annotations::annotations;
use crate::kept::{goal_with, theorem_with};
use crate::levels::Level;
use crate::lists::{arguments, binders};
use crate::names::{bytes_of, is_same, name_at, number_at, sort_at, symbol_at, word_at};
use crate::source::{Read, Source};
use crate::terms::{read_level, read_parts};
use crate::trees::{DEPTH, listed};
use grind_grammar::{Decl, Name, Tree};
use grind_outside::List;
use grind_tokens::tokens::Sym;

// Reads what stands after the name of a function.
fn function(source: &Source, name: Name, at: usize) -> Read<Option<Decl>>
    requires { IsPlaced source.now.text.now name }
    ensures is { IfOk result (Gives source.now (reading.function_of (name_of source.now.text.now name) (ahead source.now at))
        (declaration_given source.now.text.now)) }
    ensures left { IfOk result (Leaves (IsPlacedGiven source.now.text.now) at) }
{
    let Some((args, after)) = arguments(source, at)? else {
        return Ok(None);
    };
    let Some(mid) = symbol_at(source, after, Sym::Colon) else {
        return Ok(None);
    };
    let Some((sort, left)) = sort_at(source, mid) else {
        return Ok(None);
    };
    let decl = Decl::Fun {
        name,
        args,
        result: sort,
    };
    Ok(Some((Some(decl), left)))
}

// Reads the hypotheses of a goal, and the turnstile after them.
fn hypotheses(source: &Source, at: usize) -> Read<Option<List<Tree>>>
    ensures is { IfOk result (GivesMade source.now reading.all_of (reading.hyps (level levels.Formula depth_limit) (ahead source.now at))
        (trees_given source.now.text.now)) }
    ensures left { IfOk result (Leaves (AreTreesPlaced source.now.text.now) at) }
{
    if let Some(left) = symbol_at(source, at, Sym::Turnstile) {
        return Ok(Some((Some(List::new(source.alloc)), left)));
    }
    let Some((parts, after)) = read_parts(source, DEPTH, Level::Formula, Sym::Semicolon, at)? else {
        return Ok(None);
    };
    let Some(left) = symbol_at(source, after, Sym::Turnstile) else {
        return Ok(None);
    };
    let trees = listed(source.alloc, parts)?;
    Ok(Some((trees, left)))
}

// Reads what stands after the name of a theorem.
fn theorem(source: &Source, name: Name, at: usize) -> Read<Option<Decl>>
    requires { IsPlaced source.now.text.now name }
    ensures is { IfOk result (Gives source.now
        (reading.theorem_of depth_limit depth_limit (name_of source.now.text.now name) (ahead source.now at))
        (declaration_given source.now.text.now)) }
    ensures left { IfOk result (Leaves (IsPlacedGiven source.now.text.now) at) }
{
    let Some((bound, after)) = binders(source, at)? else {
        return Ok(None);
    };
    let Some((annots, rest)) = annotations(source, DEPTH, after)? else {
        return Ok(None);
    };
    let Some(mid) = symbol_at(source, rest, Sym::Colon) else {
        return Ok(None);
    };
    let Some((body, left)) = read_level(source, DEPTH, Level::Formula, mid)? else {
        return Ok(None);
    };
    Ok(Some((theorem_with(name, bound, annots, body), left)))
}

// Reads what stands after the name of a goal.
fn goal(source: &Source, name: Name, at: usize) -> Read<Option<Decl>>
    requires { IsPlaced source.now.text.now name }
    ensures is { IfOk result (Gives source.now
        (reading.goal_of depth_limit depth_limit (name_of source.now.text.now name) (ahead source.now at))
        (declaration_given source.now.text.now)) }
    ensures left { IfOk result (Leaves (IsPlacedGiven source.now.text.now) at) }
{
    let Some((bound, after)) = binders(source, at)? else {
        return Ok(None);
    };
    let Some(mid) = symbol_at(source, after, Sym::Colon) else {
        return Ok(None);
    };
    let Some((hyps, rest)) = hypotheses(source, mid)? else {
        return Ok(None);
    };
    let Some((show, left)) = read_level(source, DEPTH, Level::Formula, rest)? else {
        return Ok(None);
    };
    Ok(Some((goal_with(name, bound, hyps, show), left)))
}

// Reads what stands after the word and the name of a declaration.
fn named(source: &Source, keyword: Name, name: Name, at: usize) -> Read<Option<Decl>>
    requires begun { IsPlaced source.now.text.now keyword }
    requires named { IsPlaced source.now.text.now name }
    ensures is { IfOk result (Gives source.now
        (reading.declaration_of depth_limit depth_limit (name_of source.now.text.now keyword) (name_of source.now.text.now name) (ahead source.now at))
        (declaration_given source.now.text.now)) }
    ensures left { IfOk result (Leaves (IsPlacedGiven source.now.text.now) at) }
{
    let word = bytes_of(source.text, keyword);
    if is_same(word, b"sort".as_slice()) {
        return Ok(Some((Some(Decl::Sort { name }), at)));
    }
    if is_same(word, b"fun".as_slice()) {
        let answer = function(source, name, at)?;
        return Ok(answer);
    }
    if is_same(word, b"theorem".as_slice()) {
        let answer = theorem(source, name, at)?;
        return Ok(answer);
    }
    if is_same(word, b"goal".as_slice()) {
        let answer = goal(source, name, at)?;
        return Ok(answer);
    }
    if !is_same(word, b"limit".as_slice()) {
        return Ok(None);
    }
    let Some((value, left)) = number_at(source, at) else {
        return Ok(None);
    };
    Ok(Some((Some(Decl::Limit { name, value }), left)))
}

// Reads a declaration.
pub(crate) fn declaration(source: &Source, at: usize) -> Read<Option<Decl>>
    ensures is { IfOk result (Gives source.now (reading.declaration depth_limit depth_limit (ahead source.now at))
        (declaration_given source.now.text.now)) }
    ensures left { IfOk result (Leaves (IsPlacedGiven source.now.text.now) at) }
{
    let Some((keyword, after)) = word_at(source, at) else {
        return Ok(None);
    };
    let Some((name, rest)) = name_at(source, after) else {
        return Ok(None);
    };
    let Some((decl, left)) = named(source, keyword, name, rest)? else {
        return Ok(None);
    };
    Ok(Some((decl, left)))
}
