//! The reader of reports. So far it reads the words of a line that say a number or a name, each of them exactly.
#![tactic(auto)]

pub mod numbers;

pub use numbers::{integer_of, is_name, number_of};
