//! Undo. A mark is set on a value, the value is changed by any calls, and `undo` gives back what the value was at
//! the mark. What a mark stands for is one list: for each mark in force, the view that `undo` would leave.
#![tactic(auto)]

pub mod mark;
pub mod undo;

pub use mark::Mark;
pub use undo::{Undo, between_marks, undo_after_any_calls};
