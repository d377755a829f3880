//! The journal of a whiteboard: posts in the order in which they were made, each with its claim, the rule by which it
//! follows and what it follows from. What the posts say of classes, and which posts are typed, are definitions over the
//! list of them.
#![tactic(auto)]

pub mod journal;
pub mod laws;

pub use grind_report_words::{Post, Premise};
pub use journal::Journal;
