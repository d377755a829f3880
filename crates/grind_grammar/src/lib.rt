//! The grammar of the whole language: the declarations as the reader keeps them, and, at the level of
//! definitions, which declarations a list of lexemes is. Lexemes have one parse at most.
#![tactic(auto)]

pub mod laws;
pub mod syntax;

pub use syntax::{Annot, Binary, Binder, Decl, Name, Tree, Unary};
