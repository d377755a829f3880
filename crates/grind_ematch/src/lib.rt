//! Matches of theorems: which substitutions make the patterns of a theorem equal, up to class, to terms that are there.
#![tactic(auto)]

pub mod buckets;
pub mod found;
pub mod index;
pub mod joining;
pub mod partial;
pub mod patterns;
pub mod query;
pub mod search;
pub mod slots;
pub mod thinning;
pub mod waiting;
pub mod walk;

pub use found::Match;
pub use search::matches;
