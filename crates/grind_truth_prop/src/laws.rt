//! What holds of every answer. Each law is a call without a body: who makes the call knows the law.
ghost use Rattle.grind_truth_prop.specs.Laws.{ClassedIsTyped, SidesAreTyped, JoinedIsTyped, PartedIsTyped, SettledIsTyped, ContradictedIsTyped, NoConsequenceAtWants, NothingLeftAtRest};

/// What is in the class of `True` or `False` holds or fails, by the rule `untruth`.
pub fn classed_is_typed()
    ensures { ClassedIsTyped }
{}

/// The sides of a known equation are equal or different, by the rule `eq`.
pub fn sides_are_typed()
    ensures { SidesAreTyped }
{}

/// An equation of two nodes in one class holds, by the rule `back`.
pub fn joined_is_typed()
    ensures { JoinedIsTyped }
{}

/// Two sides that are different up to class are different, by the rule `apart`, and their equation fails, by the rule
/// `back`.
pub fn parted_is_typed()
    ensures { PartedIsTyped }
{}

/// What the truth table of a connective leaves one truth has it, by the rule `table` over the arguments.
pub fn settled_is_typed()
    ensures { SettledIsTyped }
{}

/// Where it leaves nothing possible, that is a contradiction, by the rule `table` over the arguments.
pub fn contradicted_is_typed()
    ensures { ContradictedIsTyped }
{}

/// Where a formula is to be tried, no consequence is left.
pub fn no_consequence_at_wants()
    ensures { NoConsequenceAtWants }
{}

/// At rest no consequence is left, and nothing is to be tried.
pub fn nothing_left_at_rest()
    ensures { NothingLeftAtRest }
{}
