//! The annotations of a theorem: what is asked of the terms that they write, the patterns that they give, and their sizes.
#![tactic(auto)]

mod patterns;
mod questions;
mod sizes;

pub use patterns::lists_of_annots;
pub use questions::{Question, all_answer, annots_answer, answers};
pub use sizes::size_of_annots;
