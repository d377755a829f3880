//! The units, one file each, and the two kinds of case of the last.
mod parts_an_equation;
pub mod pinches_two_terms;
pub mod settles;
mod settles_a_comparison;
