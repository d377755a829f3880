//! What a node is made by.
use crate::ids::FunId;

/// The outermost symbol of a term.
#[derive(Clone, Copy, Debug, PartialEq, Eq, Hash)]
pub enum Head {
    /// The formula that holds.
    True,
    /// The formula that fails.
    False,
    /// Negation of a formula.
    Not,
    /// Conjunction of two formulas.
    And,
    /// Disjunction of two formulas.
    Or,
    /// Implication between two formulas.
    Implies,
    /// Equality of two terms of one sort.
    Eq,
    /// Order of two whole numbers.
    Le,
    /// A whole number that is written out.
    Int(i128),
    /// Sum of two whole numbers.
    Add,
    /// A whole number with its sign turned.
    Neg,
    /// Product of two whole numbers.
    Mul,
    /// A declared function at its arguments.
    Fun(FunId),
    /// A constant of the goal, by its number.
    Const(u32),
}
