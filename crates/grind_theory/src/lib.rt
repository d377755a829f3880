//! The theory that declarations make: what each name stands for, the theorems with their patterns, the limits of a
//! search, and the terms of each goal; or the first declaration that is bad, and what is wrong with it.
#![tactic(auto)]

mod binders;
mod declarations;
pub mod elaboration;
mod goal_faults;
mod goals;
mod heading;
pub mod laws;
mod limits;
mod sorts;
mod theorem_faults;
mod theorem_sizes;
mod theorems;
pub mod theory;

pub use elaboration::elaborate;
pub use limits::LimitKind;
pub use theory::{Fault, Theory, TheoryRefusal};
