//! The names that a theory declares: sorts, functions and labels, in one space of names.
#![tactic(auto)]

pub mod fun_table;
pub mod name_table;
pub mod signature;

pub use fun_table::{Arity, FunTable};
pub use name_table::NameTable;
pub use signature::{Signature, SignatureRefusal};
