//! The ring solver by itself: equalities of whole numbers are taken in, and each step names the next consequence of them
//! as polynomials: an equality whose polynomial is to be said to be 0, the next element of the basis with the line by
//! which it is 0, a contradiction, two terms that are equal; or what stands in the way of one, a number that does not fit
//! in 128 bits or a limit; or rest, at which every polynomial that was taken and every S-polynomial within the degree bound is
//! reduced to 0.
#![tactic(auto)]

mod changes;
mod copies;
mod decision;
pub mod laws;
pub mod ring;
pub mod types;

pub use laws::{
    equal_forms_are_joined, equal_lines_are_typed, joining_lines_are_typed, rest_is_reduced,
};
pub use ring::Ring;
pub use types::RingStep;
