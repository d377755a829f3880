//! The proof of a goal: congruence decides it.
ghost use Rattle.std.specs.Prelude.{IfOk};
ghost use Rattle.grind_answers.specs.Outcomes.{IsOutcomeOf};

use grind_case_split::{Plain, solve_goal as decide};
use grind_goal_equations::ground_goals;
use grind_outside::Memory;
use grind_proof_kernel::laws::typed_lines_count;
use grind_report::report::Outcome;
use grind_schemes::{Goal, Lemmas};
use grind_value_tables::laws::typed_is_true;
use std::alloc::Global;

/// What becomes of a goal: it is closed, by a proof that is typed for it, exactly where its conclusion
/// is one of its hypotheses or congruence entails it; a ground equality goal exactly where congruence entails it.
///
/// # Errors
///
/// Out of memory.
pub fn solve_goal(alloc: Global, lemmas: &Lemmas, goal: &Goal) -> Result<Outcome, Memory>
    ensures { IfOk result (IsOutcomeOf lemmas.now goal.now) }
{
    typed_is_true();
    typed_lines_count();
    ground_goals();
    let _name = goal.name();
    let _nodes = goal.terms().len();
    match decide(alloc, lemmas, goal)? {
        Plain::Closed(proof) => Ok(Outcome::Closed(proof)),
        Plain::Unexplored => Ok(Outcome::Unexplored),
    }
}
