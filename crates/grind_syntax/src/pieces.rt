//! The pieces of a file: what stands before each dot.
ghost use Rattle.std.specs.Prelude.{◌≡◌, ◌<◌, ℕ, List, MatchOption};
ghost use Rattle.grind_grammar.specs.Reading as reading;
ghost use Rattle.grind_grammar.specs.Files.{depth_limit};
ghost use Rattle.grind_syntax.specs.Places.{Placed};
ghost use Rattle.grind_syntax.specs.Sources.{ahead};
ghost use Rattle.grind_syntax.specs.Pieces.{AreUndotted, DotAfter, IsCut, open_after_kind};

use crate::source::Source;
use grind_tokens::tokens::{Sym, Token, TokenKind};

// How many parentheses may be open.
const OPEN: usize = 200;

// How many parentheses are open after a token.
fn open_after(count: usize, kind: TokenKind) -> usize
    requires { count < 1000 }
    ensures { result ≡ open_after_kind count kind }
{
    match kind {
        TokenKind::Symbol(Sym::LeftParen) => count + 1,
        TokenKind::Symbol(Sym::RightParen) => count.saturating_sub(1),
        _ => count,
    }
}

// Whether no token leaves more parentheses open than may be.
pub(crate) fn is_within(piece: &Source) -> bool
    ensures { result ≡ reading.within depth_limit 0 (ahead piece.now 0) }
{
    let mut count = 0;
    let mut rest = piece.tokens;
    while let Some((token, left)) = rest.split_first() {
        count = open_after(count, token.kind);
        if count > OPEN {
            return false;
        }
        rest = left;
    }
    true
}

// How many tokens stand before the first dot.
fn len_to_dot(tokens: &[Token]) -> usize
    ensures { DotAfter tokens.now result }
{
    let mut count = 0;
    let mut rest = tokens;
    while let Some((token, left)) = rest.split_first() {
        if token.kind == TokenKind::Symbol(Sym::Dot) {
            return count;
        }
        count += 1;
        rest = left;
    }
    count
}

// The tokens before the first dot, and those after it, if there is one.
pub(crate) fn split_at_dot(tokens: &[Token]) -> (&[Token], Option<&[Token]>)
    ensures undotted { AreUndotted result.0.now }
    ensures placed { (text : List ℕ) → Placed text tokens.now → Placed text result.0.now }
    ensures is { MatchOption result.1 (result.0.now ≡ tokens.now) (λ left. IsCut tokens.now result.0.now left.now) }
{
    let (piece, rest) = tokens.split_at(len_to_dot(tokens));
    let Some((_dot, left)) = rest.split_first() else {
        return (piece, None);
    };
    (piece, Some(left))
}
