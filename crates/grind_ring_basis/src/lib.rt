//! A basis of polynomials that are 0, and what follows from it: the normal form of a polynomial over the basis, the
//! S-polynomial of two elements within a degree of 16, and the line by the rule `ideal` that states such a normal form, or
//! that a polynomial with the normal form 0 is 0. A line names its premises in rising order, each once.
#![tactic(auto)]

mod combination;
mod factors;
pub mod laws;
pub mod lines;
mod multiples;
pub mod normal_forms;
mod order;
pub mod pairs;
pub mod types;

pub use laws::{
    difference_lines_are_typed, pair_lines_are_typed, post_lines_are_typed, zeros_stay,
};
pub use lines::{difference_line, pair_line, post_line};
pub use normal_forms::normal_form;
pub use pairs::s_polynomial;
pub use types::{Basis, Cancelled, Combination, Fact, Pair, Places};
