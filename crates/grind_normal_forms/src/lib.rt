//! Polynomials reduced by others: the polynomial in which two leading terms cancel, the normal form by a basis, and the
//! factors by which a multiple of a polynomial is its normal form and a sum of multiples of the basis.
#![tactic(auto)]

mod content;
pub mod factors;
mod gathering;
pub mod laws;
mod numbers;
pub mod pairs;
pub mod reduction;
mod scaling;

pub use factors::{Factors, factors_of};
pub use laws::{
    factors_have_their_values, final_factors_are_one, normal_forms_are_one, normal_forms_fit,
    normal_forms_have_their_values, reductions_have_one_answer, s_polynomials_are_one,
    s_polynomials_have_their_values, zero_rests_have_factor_one,
};
pub use numbers::divided;
pub use pairs::{lead_divisor, s_poly};
pub use reduction::{Reduced, normal};
