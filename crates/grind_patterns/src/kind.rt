//! The kinds of annotation.
use grind_outside::List;
use grind_schemes::Scheme;

/// How an annotation chooses the pattern terms of a theorem.
#[derive(Drop)]
pub enum Kind {
    /// The left side of a conclusion that is an equation.
    Left,
    /// The right side of a conclusion that is an equation.
    Right,
    /// A walk over the hypotheses.
    Hyps,
    /// A walk over the conclusion.
    Concl,
    /// The terms that are written out.
    Written(List<Scheme>),
}
