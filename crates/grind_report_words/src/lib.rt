//! What a report says: its types, and, at the level of definitions, which lines it has. A report is read line by line; each
//! line takes one step, or none. Bytes are one report at most, and where they are none, one line is the first at which no
//! report goes on.
#![tactic(auto)]

pub mod board;
pub mod laws;
pub mod proof;
pub mod report;
pub mod term;

pub use board::{Entry, Evidence, Post, Premise, RawBoard, Reason, Value};
pub use proof::RawProof;
pub use report::{Block, Report};
pub use term::RawTerm;
