//! Symbols, names and sorts at a place of a source.
ghost use Rattle.std.specs.Prelude.{◌≡◌, ◌≤◌, length, Some, None, MatchOption, IfSome, drop, ◌∷◌, []};
ghost use Rattle.std.specs.List.{list_any};
ghost use Rattle.std.specs.Str.{bytes_eq};
ghost use Rattle.grind_grammar.specs.Names.{reserved};
ghost use Rattle.grind_grammar.specs.Lexemes.{Word, Symbol, Number};
ghost use Rattle.grind_grammar.specs.Keeps.{IsPlaced, name_of};
ghost use Rattle.grind_grammar.specs.Reading as reading;
ghost use Rattle.grind_syntax.specs.Places.{NoWord, NoSymbol, NoNumber};
ghost use Rattle.grind_syntax.specs.Sources.{ahead, IsPast, Gives, Takes};

use crate::source::Source;
use grind_grammar::Name;
use grind_tokens::tokens::{Sym, Token, TokenKind};

// Whether two texts are the same.
pub(crate) fn is_same(word: &[u8], other: &[u8]) -> bool
    ensures { result ≡ bytes_eq word.now other.now }
{
    word == other
}

// Whether the word is no name.
fn is_reserved(word: &[u8]) -> bool
    ensures { result ≡ list_any (bytes_eq word.now) reserved }
{
    if is_same(word, b"sort".as_slice()) {
        return true;
    }
    if is_same(word, b"fun".as_slice()) {
        return true;
    }
    if is_same(word, b"theorem".as_slice()) {
        return true;
    }
    if is_same(word, b"goal".as_slice()) {
        return true;
    }
    if is_same(word, b"limit".as_slice()) {
        return true;
    }
    if is_same(word, b"pattern".as_slice()) {
        return true;
    }
    if is_same(word, b"true".as_slice()) {
        return true;
    }
    if is_same(word, b"false".as_slice()) {
        return true;
    }
    if is_same(word, b"Int".as_slice()) {
        return true;
    }
    if is_same(word, b"Prop".as_slice()) {
        return true;
    }
    is_same(word, b"_".as_slice())
}

// Whether the word is a name.
#[tactic(auto, unfolding(grind_grammar::specs::Reading::is_name))]
pub(crate) fn is_name(word: &[u8]) -> bool
    ensures { result ≡ reading.is_name word.now }
{
    !is_reserved(word)
}

// Whether the word is a sort.
#[tactic(auto, unfolding(grind_grammar::specs::Reading::is_sort))]
fn is_sort(word: &[u8]) -> bool
    ensures { result ≡ reading.is_sort word.now }
{
    if is_name(word) {
        return true;
    }
    if is_same(word, b"Int".as_slice()) {
        return true;
    }
    is_same(word, b"Prop".as_slice())
}

// The token at a place, and the next place.
fn token_at<'a>(source: &Source<'a>, at: usize) -> Option<(&'a Token, usize)>
    ensures is { MatchOption result (drop at source.now.tokens.now ≡ [])
        (λ found. drop at source.now.tokens.now ≡ found.0.now ∷ drop found.1 source.now.tokens.now) }
    ensures left { IfSome result (λ found. IsPast source.now at found.1) }
    ensures placed { IfSome result (λ found. (found.0.now.start ≤ found.0.now.end) × (found.0.now.end ≤ length source.now.text.now)) }
{
    if at >= source.tokens.len() {
        return None;
    }
    Some((&source.tokens[at], at + 1))
}

// The place after a symbol that stands here.
pub(crate) fn symbol_at(source: &Source, at: usize, sym: Sym) -> Option<usize>
    ensures is { MatchOption result (reading.symbol_at sym (ahead source.now at) ≡ None)
        (λ left. reading.symbol_at sym (ahead source.now at) ≡ Some (ahead source.now left)) }
    ensures left { IfSome result (λ left. IsPast source.now at left) }
{
    let (found, left) = any_symbol_at(source, at)?;
    if found == sym {
        return Some(left);
    }
    None
}

// The symbol here, and the place after it.
pub(crate) fn any_symbol_at(source: &Source, at: usize) -> Option<(Sym, usize)>
    ensures is { MatchOption result (NoSymbol (ahead source.now at))
        (λ found. ahead source.now at ≡ Symbol found.0 ∷ ahead source.now found.1) }
    ensures left { IfSome result (λ found. IsPast source.now at found.1) }
{
    let (token, left) = token_at(source, at)?;
    let TokenKind::Symbol(sym) = token.kind else {
        return None;
    };
    Some((sym, left))
}

// The number here, and the place after it.
pub(crate) fn number_at(source: &Source, at: usize) -> Option<(i128, usize)>
    ensures is { MatchOption result (NoNumber (ahead source.now at))
        (λ found. ahead source.now at ≡ Number found.0 ∷ ahead source.now found.1) }
    ensures left { IfSome result (λ found. IsPast source.now at found.1) }
{
    let (token, left) = token_at(source, at)?;
    let TokenKind::Number(value) = token.kind else {
        return None;
    };
    Some((value, left))
}

// The word here, as the range of bytes where it stands, and the place after it.
pub(crate) fn word_at(source: &Source, at: usize) -> Option<(Name, usize)>
    ensures is { MatchOption result (NoWord (ahead source.now at))
        (λ found. ahead source.now at ≡ Word (name_of source.now.text.now found.0) ∷ ahead source.now found.1) }
    ensures left { Takes source.now (IsPlaced source.now.text.now) at result }
{
    let (token, left) = token_at(source, at)?;
    let TokenKind::Word = token.kind else {
        return None;
    };
    let name = Name {
        start: token.start,
        end: token.end,
    };
    Some((name, left))
}

// The bytes of a name.
pub(crate) fn bytes_of<'a>(text: &'a [u8], name: Name) -> &'a [u8]
    requires { IsPlaced text.now name }
    ensures { result.now ≡ name_of text.now name }
{
    &text[name.start as usize..name.end as usize]
}

// The name here, and the place after it.
pub(crate) fn name_at(source: &Source, at: usize) -> Option<(Name, usize)>
    ensures is { Gives source.now (reading.name_at (ahead source.now at)) (name_of source.now.text.now) result }
    ensures left { Takes source.now (IsPlaced source.now.text.now) at result }
{
    let (name, left) = word_at(source, at)?;
    if is_name(bytes_of(source.text, name)) {
        return Some((name, left));
    }
    None
}

// The sort here, and the place after it.
pub(crate) fn sort_at(source: &Source, at: usize) -> Option<(Name, usize)>
    ensures is { Gives source.now (reading.sort_at (ahead source.now at)) (name_of source.now.text.now) result }
    ensures left { Takes source.now (IsPlaced source.now.text.now) at result }
{
    let (name, left) = word_at(source, at)?;
    if is_sort(bytes_of(source.text, name)) {
        return Some((name, left));
    }
    None
}
