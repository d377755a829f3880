//! The reading of arithmetic terms, by operations on what they are read as. A sum, a negation and a product are read by
//! their arguments, a number by what it is, and every other term as itself. One pass over a table reads each node that is
//! needed once, and lets its reading go after the last use.
#![tactic(auto)]

pub mod algebra;
pub mod laws;
pub mod marking;
pub mod readers;
mod reading;
pub mod walk;

pub use algebra::Algebra;
pub use laws::{readings_have_their_values, readings_stay};
pub use marking::{is_marked, needed_nodes};
pub use readers::{last_reader, last_readers, last_uses};
pub use walk::{held, read_all, read_term};
