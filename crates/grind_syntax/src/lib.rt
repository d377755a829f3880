//! The reader of a theory file: from its tokens to its declarations.
#![tactic(auto)]

mod annotations;
mod built;
mod declarations;
mod kept;
mod levels;
mod lists;
mod names;
pub mod parse;
mod parts;
mod pieces;
mod sides;
mod source;
mod terms;
mod trees;
