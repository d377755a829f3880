//! What a rule may refer to besides its premises.
use grind_claims::Claim;
use grind_schemes::{Goal, Lemmas};
use grind_term_graph::TermTable;

/// What a rule may refer to besides its premises.
#[derive(Drop)]
pub struct Setting<'a> {
    /// The theorems.
    pub lemmas: &'a Lemmas,
    /// The goal, whose hypotheses hold and whose conclusion is denied.
    pub goal: &'a Goal,
    /// The terms that claims speak of.
    pub terms: &'a TermTable,
    /// What the branch assumes besides its parent. The root assumes nothing.
    pub literal: Option<&'a Claim>,
}
