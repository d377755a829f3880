//! Where the assignment of whole numbers fails: the split that is then wanted, or a post that does not fit in 128 bits.
#![tactic(auto)]

mod bounds;
mod evaluation;
mod judging;
mod types;
mod verdicts;

pub use types::Verdict;
pub use verdicts::verdict;
