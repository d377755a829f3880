//! Goals that congruence decides: where the hypotheses and the denied conclusion say that some terms are equal and others
//! different, the goal is closed, with a typed proof, exactly where a pair that is denied follows from those that are given.
#![tactic(auto)]

mod closing;
pub mod equations;
pub mod plain;

pub use equations::{Equations, equations_of};
pub use grind_goal_equations::ground_goals;
pub use plain::{Plain, solve_goal};
