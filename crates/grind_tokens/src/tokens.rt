//! The tokens of a theory file, read from its bytes in one pass.
ghost use Rattle.std.specs.Prelude.{◌≡◌, ◌≤◌, ◌++◌, length, All, IfOk, IfErr, OnOk};
ghost use Rattle.grind_tokens.specs.Fronts.{tokens_of};
ghost use Rattle.grind_tokens.specs.Tokens.{TokensOf, IsRefusal, IsPiece, SomeReading, OneReading, NotBoth, OneBreak, TokensArePieces, NamesArePlain};

use crate::pieces::first_front;
use grind_outside::{List, Memory};
use std::alloc::Global;

/// The symbols of the language.
#[derive(Clone, Copy, Debug, PartialEq, Eq)]
pub enum Sym {
    /// `.`
    Dot,
    /// `,`
    Comma,
    /// `:`
    Colon,
    /// `;`
    Semicolon,
    /// `(`
    LeftParen,
    /// `)`
    RightParen,
    /// `[`
    LeftSquare,
    /// `]`
    RightSquare,
    /// `=`
    Eq,
    /// `!=`
    Ne,
    /// `<`
    Lt,
    /// `<=`
    Le,
    /// `<->`
    Iff,
    /// `>`
    Gt,
    /// `>=`
    Ge,
    /// `+`
    Plus,
    /// `-`
    Minus,
    /// `*`
    Star,
    /// `/\`
    And,
    /// `\/`
    Or,
    /// `~`
    Not,
    /// `->`
    Arrow,
    /// `|-`
    Turnstile,
}

/// What a token is.
#[derive(Clone, Copy, Debug, PartialEq, Eq)]
pub enum TokenKind {
    /// A name: `_` or a character with the property XID_Start, then characters with XID_Continue,
    /// at most 255 bytes.
    Word,
    /// A number, written in decimal digits: from 0 to 2^127 - 1.
    Number(i128),
    /// A symbol.
    Symbol(Sym),
}

/// A token, and where it stands.
#[derive(Clone, Copy, Debug, PartialEq, Eq)]
pub struct Token {
    /// What it is.
    pub kind: TokenKind,
    /// The offset of its first byte.
    pub start: u32,
    /// The offset past its last byte.
    pub end: u32,
}

/// Why no tokens were read. An offset counts bytes from the beginning of the text.
#[derive(Clone, Copy, Debug, PartialEq, Eq)]
pub enum LexRefusal {
    /// Neither white space nor a comment nor a token begins here, or, in a comment, no character of UTF-8.
    BadByte {
        /// The offset of the byte.
        offset: u32,
    },
    /// A number is larger than 2^127 - 1.
    NumberTooLarge {
        /// The offset of its first digit.
        offset: u32,
    },
    /// A name is longer than 255 bytes.
    NameTooLong {
        /// The offset of its first byte.
        offset: u32,
    },
    /// Out of memory.
    Memory,
}

impl From<Memory> for LexRefusal {
    ghost use Rattle.grind_tokens.specs.declared.tokens.LexRefusal.TheVariants.{Memory};

    ghost from_gives = { λ _ e. e ≡ Memory };

    fn from(_error: Memory) -> LexRefusal {
        LexRefusal::Memory
    }
}

// Puts the token that a piece gives at the end.
fn keep(
    tokens: &mut List<Token>,
    kind: Option<TokenKind>,
    start: u32,
    end: u32,
) -> Result<(), Memory>
    ensures { OnOk result (tokens.new ≡ tokens.old ++ tokens_of kind start end) }
{
    if let Some(kind) = kind {
        return tokens.push(Token { kind, start, end });
    }
    Ok(())
}

/// The tokens of a text.
///
/// # Errors
///
/// The first fault of the text, by its least offset, or `Memory` where memory was wanted.
pub fn tokens(alloc: Global, text: &[u8]) -> Result<List<Token>, LexRefusal>
    requires { length text.now ≤ 4194304 }
    ensures ok { IfOk result (TokensOf text.now) }
    ensures pieces { IfOk result (All (IsPiece text.now)) }
    ensures refused { IfErr result (IsRefusal text.now) }
{
    let mut tokens = List::new(alloc);
    let mut rest = text;
    let mut at = 0;
    while rest.len() > 0 {
        let front = match first_front(rest, at) {
            Ok(front) => front,
            Err(fault) => return Err(fault),
        };
        let (_, after) = rest.split_at(front.len);
        let end = at + front.len as u32;
        keep(&mut tokens, front.kind, at, end)?;
        rest = after;
        at = end;
    }
    Ok(tokens)
}

/// Each text has one list of tokens, or else one first fault.
pub fn one_reading()
    ensures some { SomeReading }
    ensures tokens { OneReading }
    ensures not_both { NotBoth }
    ensures fault { OneBreak }
{}

/// A name can stand as one word of a line.
pub fn names_are_plain()
    ensures { NamesArePlain }
{}

/// Each token of a text is a piece of it.
pub fn tokens_are_pieces()
    ensures { TokensArePieces }
{}
