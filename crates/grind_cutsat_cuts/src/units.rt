//! The units, one file each.
pub mod cuts_a_bound;
pub mod resolves_two_bounds;
