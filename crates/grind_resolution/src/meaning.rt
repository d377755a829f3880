//! What the binders of a declaration are, and what a name stands for.
use grind_term_graph::Head;

/// What the binders of a declaration are.
#[derive(Clone, Copy, Debug, PartialEq, Eq)]
pub enum BinderKind {
    /// The constants of a goal.
    Constant,
    /// The variables of a theorem.
    Variable,
}

/// What a name stands for.
#[derive(Clone, Copy, Debug, PartialEq, Eq)]
pub enum Meaning {
    /// A variable of the theorem, by its number from 0.
    Variable(u32),
    /// This head, at the arguments of the name.
    Headed(Head),
}
