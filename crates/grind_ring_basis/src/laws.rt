//! What holds of every line, and of a basis that grows. Each law is a call without a body: its caller knows the law.
ghost use Rattle.grind_ring_basis.specs.Laws.{PostLinesAreTyped, PairLinesAreTyped, DifferenceLinesAreTyped, ZerosStay};

/// The line for the normal form of a fact is one by the rule `ideal` over the fact and elements of the basis, each once
/// and with a factor other than 0, in rising order.
pub fn post_lines_are_typed()
    ensures { PostLinesAreTyped }
{}

/// The line for the normal form of an S-polynomial is one over elements of the basis.
pub fn pair_lines_are_typed()
    ensures { PairLinesAreTyped }
{}

/// The line for a polynomial that is reduced to 0 is one over elements of the basis.
pub fn difference_lines_are_typed()
    ensures { DifferenceLinesAreTyped }
{}

/// What is reduced to 0 still is where further elements join the basis.
pub fn zeros_stay()
    ensures { ZerosStay }
{}
