//! Monomials: products of nodes of a term table, as lists of their numbers that do not fall. They are ordered by their
//! degree, and where that is one by their nodes, and they are multiplied and divided.
#![tactic(auto)]

pub mod laws;
pub mod order;
pub mod parts;

pub use laws::{
    counts_decide, factors_divide, neither_above_is_one, places_chain, places_turn, products_add,
    products_have_their_values, products_keep_places, quotients_complete, quotients_subtract,
};
pub use order::{Place, compare};
pub use parts::{divides, least_common_multiple, product, quotient};
