//! What follows next from the truths that are known, the nodes that are different and the classes of a closure under
//! congruence: a formula that holds or fails equals `True` or `False`, two nodes are congruent, or there is a contradiction;
//! and where nothing follows, rest.
#![tactic(auto)]

mod given;
pub mod laws;
pub mod step;
pub mod types;
mod units;

pub use grind_truth_prop::{Couple, Known};
pub use step::closure_step;
pub use types::ClosureStep;
