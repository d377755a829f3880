//! The lines of the answers, and what is at rest. Each law is a call without a body: its caller knows the law.
ghost use Rattle.grind_ring_solver.specs.Laws.{JoiningLinesAreTyped, EqualLinesAreTyped, RestIsReduced, EqualFormsAreJoined};

/// The line of a normal form that joins is one by the rule `ideal` over posts that the solver knows.
pub fn joining_lines_are_typed()
    ensures { JoiningLinesAreTyped }
{}

/// So is the line of two equal terms, or it names the post that says that their polynomial is 0.
pub fn equal_lines_are_typed()
    ensures { EqualLinesAreTyped }
{}

/// At rest each fact that was taken is reduced to 0, and so is the S-polynomial of two elements of the basis, unless its degree is
/// over 16.
pub fn rest_is_reduced()
    ensures { RestIsReduced }
{}

/// At rest two active terms with equal normal forms are in one class, or were taken as equal, unless the line that would say so does
/// not fit.
pub fn equal_forms_are_joined()
    ensures { EqualFormsAreJoined }
{}
