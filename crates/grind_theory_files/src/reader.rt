//! From the bytes of a theory file to the theory, or to why it is none.
ghost use Rattle.std.specs.Prelude.{◌≡◌, ◌≤◌, length, IfOk, IfErr};
ghost use Rattle.grind_theory.specs.Theories.{AreDeclared};
ghost use Rattle.grind_theory_files.specs.Reading.{AreTokens, AreDeclarations, IsRefusal, IsLexical, IsGrammatical, IsOfDeclarations};
ghost use Rattle.grind_theory_files.specs.TheoryFiles.{TheoryOf, OneTheoryOf, RefusedHaveNone, OneRefusalOf};

use grind_command::Refusal;
use grind_grammar::Decl;
use grind_grammar::laws::{names_are_words, one_parse};
use grind_outside::List;
use grind_syntax::parse::{SyntaxRefusal, parse};
use grind_theory::elaborate;
use grind_theory::laws::{one_refusal, one_theory};
use grind_theory::theory::{Theory, TheoryRefusal};
use grind_tokens::tokens::{LexRefusal, Token, names_are_plain, one_reading, tokens};
use std::alloc::Global;

/// Why no theory was read.
#[derive(Clone, Copy, Debug, PartialEq, Eq)]
pub enum ReaderRefusal {
    /// The bytes are none.
    Refused(Refusal),
    /// Out of memory.
    Memory,
}

/// The theory that the bytes are.
///
/// # Errors
///
/// Why they are none, the first fault of tokens, grammar and declarations in this order; want of memory.
pub fn theory_of(alloc: Global, bytes: &[u8]) -> Result<Theory, ReaderRefusal>
    requires { length bytes.now ≤ 4194304 }
    ensures ok { IfOk result (TheoryOf bytes.now) }
    ensures declared { IfOk result (λ theory. AreDeclared theory.signature theory.goals) }
    ensures refused { IfErr result (IsRefusal bytes.now) }
{
    let lexed = match tokens(alloc, bytes) {
        Ok(lexed) => lexed,
        Err(refusal) => return Err(lexical(refusal)),
    };
    theory_of_tokens(alloc, bytes, &lexed)
}

/// The theory of the tokens.
fn theory_of_tokens(
    alloc: Global,
    bytes: &[u8],
    lexed: &List<Token>,
) -> Result<Theory, ReaderRefusal>
    requires { AreTokens bytes.now lexed.now }
    ensures ok { IfOk result (TheoryOf bytes.now) }
    ensures declared { IfOk result (λ theory. AreDeclared theory.signature theory.goals) }
    ensures refused { IfErr result (IsRefusal bytes.now) }
{
    let decls = match parse(alloc, bytes, lexed) {
        Ok(decls) => decls,
        Err(refusal) => return Err(grammatical(refusal)),
    };
    theory_of_decls(alloc, bytes, lexed, &decls)
}

/// The theory of the declarations.
fn theory_of_decls(
    alloc: Global,
    bytes: &[u8],
    lexed: &List<Token>,
    decls: &List<Decl>,
) -> Result<Theory, ReaderRefusal>
    requires tokens { AreTokens bytes.now lexed.now }
    requires decls { AreDeclarations bytes.now lexed.now decls.now }
    ensures ok { IfOk result (TheoryOf bytes.now) }
    ensures declared { IfOk result (λ theory. AreDeclared theory.signature theory.goals) }
    ensures refused { IfErr result (IsRefusal bytes.now) }
{
    names_are_plain();
    names_are_words();
    match elaborate(alloc, bytes, decls) {
        Ok(theory) => Ok(theory),
        Err(refusal) => Err(of_declarations(refusal)),
    }
}

fn lexical(refusal: LexRefusal) -> ReaderRefusal
    ensures { IsLexical refusal result }
{
    match refusal {
        LexRefusal::Memory => ReaderRefusal::Memory,
        fault => ReaderRefusal::Refused(Refusal::Lex(fault)),
    }
}

fn grammatical(refusal: SyntaxRefusal) -> ReaderRefusal
    ensures { IsGrammatical refusal result }
{
    match refusal {
        SyntaxRefusal::Syntax { decl } => ReaderRefusal::Refused(Refusal::Syntax { decl }),
        SyntaxRefusal::TooDeep { decl } => ReaderRefusal::Refused(Refusal::TooDeep { decl }),
        SyntaxRefusal::Memory => ReaderRefusal::Memory,
    }
}

fn of_declarations(refusal: TheoryRefusal) -> ReaderRefusal
    ensures { IsOfDeclarations refusal result }
{
    match refusal {
        TheoryRefusal::Bad { decl, fault } => {
            ReaderRefusal::Refused(Refusal::Bad { decl, fault })
        }
        TheoryRefusal::Memory => ReaderRefusal::Memory,
    }
}

/// At most one theory stands for given bytes, but for the room that the schemes of its theorems have; bytes that are
/// refused are no theory; and they are refused for one thing at most.
pub fn one_theory_of()
    ensures theory { OneTheoryOf }
    ensures none { RefusedHaveNone }
    ensures refusal { OneRefusalOf }
{
    one_reading();
    one_parse();
    one_theory();
    one_refusal();
}
