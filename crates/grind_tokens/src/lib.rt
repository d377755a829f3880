//! The tokens of a theory file. A text has at most one list of tokens, or else one first fault, and the
//! reader gives the one or names the other.
#![tactic(auto)]

mod characters;
mod pieces;
mod symbols;
pub mod tokens;
