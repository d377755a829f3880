//! Proofs that are written line by line and branch by branch. A proof that is good so far stays good where a line that is
//! typed is written in a leaf and where a leaf gets a pair of opposite branches, and it is typed once each branch ends.
#![tactic(auto)]

pub mod equality;
pub mod laws;
pub mod writer;

pub use equality::Equality;
pub use writer::Writer;
