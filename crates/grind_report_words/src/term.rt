//! Terms as a report names them.
use grind_outside::List;

/// A term as a report names it: by the names of constants and functions, by whole numbers, and by the numbers of terms.
#[derive(Drop)]
pub enum RawTerm {
    /// The formula that holds.
    True,
    /// The formula that fails.
    False,
    /// The constant of that name.
    Const(List<u8>),
    /// The function of that name at these terms.
    Fun(List<u8>, List<u32>),
    /// The whole number.
    Int(i128),
    /// The negation of a formula.
    Not(u32),
    /// Both formulas.
    And(u32, u32),
    /// One of the formulas, or both.
    Or(u32, u32),
    /// From the first formula follows the second.
    Implies(u32, u32),
    /// The two terms are equal.
    Eq(u32, u32),
    /// The first whole number is at most the second.
    Le(u32, u32),
    /// The sum of two whole numbers.
    Add(u32, u32),
    /// The negative of a whole number.
    Neg(u32),
    /// The product of two whole numbers.
    Mul(u32, u32),
}
