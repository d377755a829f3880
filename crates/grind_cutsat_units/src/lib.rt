//! The units of a solver of linear integer arithmetic: what each of them makes of the facts, and that its posts are typed by
//! their rules.
#![tactic(auto)]

pub mod drafting;
pub mod laws;
pub mod posts;
pub mod sides;
pub mod types;
pub mod units;

pub use drafting::drafted;
pub use types::{Draft, Planned, View};
