//! The units, one file each.
pub mod clashes;
pub mod reads_a_comparison;
pub mod reads_an_equality;
pub mod reads_an_equation;
pub mod strengthens_a_bound;
