//! Polynomials over the nodes of a term table: sums of monomials with coefficients. A term is read as a polynomial, and
//! polynomials are added and multiplied. Every coefficient is a number of 128 bits and every monomial has a degree of at
//! most 16 where it is made, and a call says where that fails.
#![tactic(auto)]

mod keys;
pub mod laws;
mod multiples;
mod numbers;
pub mod poly;
mod put;
pub mod reading;
mod running;
pub mod sum;

pub use laws::{readings_have_their_values, readings_stay, sums_have_their_values};
pub use multiples::{Multiplier, add_multiples};
pub use numbers::{product_of, sum_of};
pub use poly::{Poly, PolyRefusal, Term};
pub use put::add_monomial;
pub use reading::{poly_of, poly_of_all};
pub use sum::add_product;
