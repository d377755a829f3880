//! What the assignment makes true. Each law is a call without a body: who makes the call knows the law.
ghost use Rattle.grind_cutsat_assignment.specs.Laws.{BoundsHold, DifferencesHold};

/// Each form that a fact bounds is at most 0 at the values, unless it is a number.
pub fn bounds_hold()
    ensures { BoundsHold }
{}

/// Whole numbers that are said to differ have different values by their readings.
pub fn differences_hold()
    ensures { DifferencesHold }
{}
