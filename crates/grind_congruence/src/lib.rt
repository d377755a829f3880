//! Closure of equations under congruence over the nodes of a term table that are active: the classes
//! that kept equations make, the next two congruent nodes that are not yet together, and the ways along
//! the kept equations that lead from one node to another.
#![tactic(auto)]

mod agenda;
pub mod application;
mod changing;
pub mod closure;
pub mod edge;
mod forest;
mod joining;
mod keys;
mod legs;
mod looking;
mod lost;
mod search;
mod uses;
pub mod view;

pub use application::Application;
pub use closure::{Closure, at_rest_is_exact, fits_longer};
pub use edge::{Edge, Found};
pub use view::ClosureView;
