//! The declarations of a theory file, read from its tokens in one pass.
ghost use Rattle.std.specs.Prelude.{◌≡◌, ◌+◌, ◌<◌, ◌^◌, ℕ, List, length, Ok, Err, All, IfOk, IfErr};
ghost use Rattle.grind_tokens.specs.Tokens.{IsPiece};
ghost use Rattle.grind_grammar.specs.Terms.{Declaration};
ghost use Rattle.grind_grammar.specs.Lexemes.{lexemes};
ghost use Rattle.grind_grammar.specs.Files.{DeclarationsOf, Syntax};
ghost use Rattle.grind_grammar.specs.Keeps.{KeepsDecls};
ghost use Rattle.grind_grammar.specs.Reading as reading;
ghost use Rattle.grind_syntax.specs.Sources.{ahead};
ghost use Rattle.grind_syntax.specs.KeptDeclarations.{declaration_kept, IsPlacedDeclaration};
ghost use Rattle.grind_syntax.specs.Refusals.{IsVerdict, IsRefusal, IsEndRefusal};

use crate::declarations::declaration;
use crate::pieces::{is_within, split_at_dot};
use crate::source::Source;
use grind_grammar::Decl;
use grind_grammar::laws::pieces_are_judged;
use grind_outside::{List, Memory};
use grind_tokens::tokens::Token;
use std::alloc::Global;

/// Why there are no declarations. Declarations are counted from 1.
#[derive(Clone, Copy, Debug, PartialEq, Eq)]
pub enum SyntaxRefusal {
    /// The grammar has no such declaration, or its dot is missing.
    Syntax {
        /// The number of the declaration.
        decl: u32,
    },
    /// More than 200 parentheses are open, or a term is deeper than 200.
    TooDeep {
        /// The number of the declaration.
        decl: u32,
    },
    /// Out of memory.
    Memory,
}

impl From<Memory> for SyntaxRefusal {
    ghost use Rattle.grind_syntax.specs.declared.parse.SyntaxRefusal.TheVariants.{Memory};

    ghost from_gives = { λ _ e. e ≡ Memory };

    fn from(_error: Memory) -> SyntaxRefusal {
        SyntaxRefusal::Memory
    }
}

// Reads a piece as the declaration of this number.
fn read_piece(piece: &Source, decl: u32) -> Result<Decl, SyntaxRefusal>
    ensures ok { IfOk result (λ kept. reading.judged (ahead piece.now 0) ≡ Ok (declaration_kept piece.now.text.now kept)) }
    ensures placed { IfOk result (λ kept. IsPlacedDeclaration piece.now.text.now kept) }
    ensures refused { IfErr result (IsVerdict (reading.judged (ahead piece.now 0)) decl) }
{
    if !is_within(piece) {
        return Err(SyntaxRefusal::TooDeep { decl });
    }
    let Some((given, left)) = declaration(piece, 0)? else {
        return Err(SyntaxRefusal::Syntax { decl });
    };
    if left < piece.tokens.len() {
        return Err(SyntaxRefusal::Syntax { decl });
    }
    let Some(kept) = given else {
        return Err(SyntaxRefusal::TooDeep { decl });
    };
    Ok(kept)
}

// What is wrong with a last piece without its dot.
fn unended(piece: &Source, decl: u32) -> SyntaxRefusal
    ensures { IsEndRefusal (ahead piece.now 0) decl result }
{
    if !is_within(piece) {
        return SyntaxRefusal::TooDeep { decl };
    }
    SyntaxRefusal::Syntax { decl }
}

/// Reads the declarations of a theory file from its tokens: each is followed by a dot, and there is
/// nothing else. Each name is kept as the place where it stands in the text.
///
/// # Errors
///
/// `Syntax` and `TooDeep` name the first declaration that is bad, and say what is wrong with it; `Memory` says that
/// it ran out of memory.
pub fn parse(alloc: Global, text: &[u8], tokens: &List<Token>) -> Result<List<Decl>, SyntaxRefusal>
    requires { All (IsPiece text.now) tokens.now }
    ensures ok { IfOk result (λ kept. (ds : List Declaration)
        × DeclarationsOf (lexemes text.now tokens.now) ds × KeepsDecls text.now kept ds) }
    ensures refused { IfErr result (IsRefusal (lexemes text.now tokens.now)) }
{
    pieces_are_judged();
    let mut decls = List::new(alloc);
    let mut rest = tokens.as_slice();
    let mut count: u32 = 0;
    while rest.len() > 0 {
        let (front, after) = split_at_dot(rest);
        let piece = Source {
            alloc,
            text,
            tokens: front,
        };
        let Some(left) = after else {
            return Err(unended(&piece, count + 1));
        };
        let kept = match read_piece(&piece, count + 1) {
            Ok(kept) => kept,
            Err(refusal) => return Err(refusal),
        };
        decls.push(kept)?;
        count += 1;
        rest = left;
    }
    Ok(decls)
}
