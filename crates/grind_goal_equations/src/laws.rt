//! What holds of every answer. The law is a call without a body: who makes the call knows the law.
ghost use Rattle.grind_goal_equations.specs.Laws.{GroundGoals};

/// A goal that says nothing but which terms are equal and different is answered exactly where it follows by congruence.
pub fn ground_goals()
    ensures { GroundGoals }
{}
