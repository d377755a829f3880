//! The two units of linear integer arithmetic that cut: a bound by the greatest common divisor of its coefficients, and the
//! combination of two bounds of one lead and opposite signs that cancels the lead.
#![tactic(auto)]

pub mod combining;
pub mod divisor;
pub mod factors;
pub mod units;

pub use units::cuts_a_bound::cuts_a_bound;
pub use units::resolves_two_bounds::resolves_two_bounds;
