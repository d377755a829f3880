//! What holds of every answer. Each law is a call without a body: its caller knows the law.
ghost use Rattle.grind_closure_steps.specs.Laws.{TruthIsTyped, CongruentAreTyped, ClashIsTyped};

/// A formula that is known equals `True` or `False`, by the rule `truth`.
pub fn truth_is_typed()
    ensures { TruthIsTyped }
{}

/// Two congruent nodes are equal, by the rule `cong`.
pub fn congruent_are_typed()
    ensures { CongruentAreTyped }
{}

/// A contradiction is one by the rule `clash`.
pub fn clash_is_typed()
    ensures { ClashIsTyped }
{}
