//! What the formulas of a theory file stand for: their names, sorts and schemes.
#![tactic(auto)]

pub mod context;
pub mod counted;
pub mod found;
pub mod known;
pub mod laws;
mod make;
pub mod meaning;
pub mod resolver;
pub mod scope;
pub mod sizes;
pub mod sorts;

pub use context::Context;
pub use counted::is_counted;
pub use found::{Found, bytes_of, name_at};
pub use known::is_known;
pub use meaning::{BinderKind, Meaning};
pub use resolver::resolve;
pub use scope::Scope;
pub use sizes::{size_of, sum_within};
pub use sorts::sort_of;
