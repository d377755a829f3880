//! What a theory gives to prove and to prove with: goals, theorems with their patterns, and the limits of a
//! search. Each type keeps in its invariant what its readers rely on, so that no call above checks it again.
#![tactic(auto)]

pub mod counting;
pub mod goal;
pub mod instance;
pub mod laws;
pub mod lemmas;
pub mod limits;
pub mod scheme;
pub mod theorem;

pub use counting::missing;
pub use goal::{Constant, Goal};
pub use instance::{instantiate, intern_scheme};
pub use lemmas::Lemmas;
pub use limits::Limits;
pub use scheme::Scheme;
pub use theorem::Theorem;
