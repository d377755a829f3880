//! What follows next from the truths that are known: a formula in the class of `True` or `False`, the sides of an
//! equation that holds or fails, an equation of sides that are equal or different, what the truth table of a
//! connective gives; where nothing follows, the formula whose truth is to be tried; and where none is to be tried,
//! rest. It is given the known truths, the known pairs and the classes, and keeps nothing.
#![tactic(auto)]

mod known;
pub mod laws;
mod pairs;
pub mod step;
mod terms;
pub mod types;
mod units;
mod ways;

pub use step::truth_step;
pub use types::{Couple, Known, TruthStep};
