//! Proofs as a report gives them.
use crate::term::RawTerm;
use grind_claims::{Branch, Line};
use grind_outside::List;

/// A proof as a report gives it: its terms are named, and none of it was judged.
#[derive(Drop)]
pub struct RawProof {
    /// The terms, numbered from 0.
    pub terms: List<RawTerm>,
    /// The branches other than the root, numbered from 1.
    pub branches: List<Branch>,
    /// The lines, numbered from 0.
    pub lines: List<Line>,
}
