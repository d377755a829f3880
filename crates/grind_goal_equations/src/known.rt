//! The equations that a goal gives, and what they come to.
ghost use Rattle.std.specs.Prelude.{ℕ, ◌<◌, All, IfOk, length};
ghost use Rattle.grind_classes.specs.Classes.{IsActive};
ghost use Rattle.grind_goal_equations.specs.Building.{HasEnds, IsClosure};
ghost use Rattle.grind_goal_equations.specs.Given.{IsOfSource, CoversAll};

use crate::building::closure_of;
use crate::given::given_by;
use grind_congruence::{Closure, Edge};
use grind_outside::{List, Memory};
use grind_schemes::Goal;
use std::alloc::Global;

/// The equations that a goal gives, as edges that have the numbers of their sources, and what they come to.
#[derive(Drop)]
pub struct Known {
    /// The equations.
    pub given: List<Edge>,
    /// Their closure under congruence, over all terms of the goal.
    pub closure: Closure,
}

/// The equations that a goal gives, and their closure.
///
/// # Errors
///
/// `Memory`.
pub fn known_of(alloc: Global, goal: &Goal) -> Result<Known, Memory>
    ensures sources { IfOk result (λ it. All (IsOfSource goal.now) it.given) }
    ensures covers { IfOk result (λ it. CoversAll goal.now it.given) }
    ensures closure { IfOk result (λ it. IsClosure goal.now.terms.nodes it.given it.closure) }
    ensures active { IfOk result (λ it. (n : ℕ) → n < length goal.now.terms.nodes → IsActive it.closure.lists n) }
{
    let given = given_by(alloc, goal)?;
    let closure = closed(alloc, goal, &given)?;
    Ok(Known { given, closure })
}

// The closure of given equations over all terms of the goal.
fn closed(alloc: Global, goal: &Goal, given: &List<Edge>) -> Result<Closure, Memory>
    requires { All (HasEnds goal.now.terms.nodes) given.now }
    ensures { IfOk result (λ closure. IsClosure goal.now.terms.nodes given.now closure) }
{
    let closure = closure_of(alloc, goal.terms(), given.as_slice())?;
    Ok(closure)
}
