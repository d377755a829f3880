//! Why a file is refused.
use grind_theory::Fault;
use grind_tokens::tokens::LexRefusal;

/// Why the bytes are no theory. Offsets are counted from 0, declarations from 1.
#[derive(Clone, Copy, Debug, PartialEq, Eq)]
pub enum Refusal {
    /// The bytes have no tokens. No file is refused for want of memory, which ends a run in another way.
    Lex(LexRefusal),
    /// A declaration is outside the grammar.
    Syntax {
        /// Its number.
        decl: u32,
    },
    /// A declaration is nested too deep.
    TooDeep {
        /// Its number.
        decl: u32,
    },
    /// A declaration has a fault.
    Bad {
        /// Its number.
        decl: u32,
        /// The first fault that it has.
        fault: Fault,
    },
}
