//! Theory files: the theory that their bytes are, or why they are none.
#![tactic(auto)]

pub mod files;
pub mod reader;

pub use files::read_theory;
pub use reader::{ReaderRefusal, one_theory_of, theory_of};
