//! The units of work, each in a file of its own.
pub mod conflicts;
pub mod equal_terms;
pub mod pairs;
pub mod posts;
pub mod zeroed;
