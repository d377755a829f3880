//! What the rules over linear forms and polynomials let follow from the claims of their premises. One function for each
//! rule, named as the rule is.
#![tactic(auto)]

pub mod apart;
pub mod combination;
pub mod linear;
mod numbers;
pub mod polynomial;

pub use apart::is_apart;
pub use combination::is_combine;
pub use linear::{is_line, is_pinch, is_read, is_strict, is_write};
pub use polynomial::{is_equal, is_ideal, is_poly_rule};
