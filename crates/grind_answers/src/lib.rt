//! What a report answers for a theory: a block for each goal, true wherever it says so; and how a run that writes it ends.
#![tactic(auto)]

pub mod parts;

pub use parts::{is_closed, write_end, write_header};
