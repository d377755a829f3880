//! What stands on a board while agents work: the terms with what is known of them, the classes, the posts, the active nodes
//! with their generations, and how far each agent has read.
#![tactic(auto)]

pub mod agent;
mod beginning;
mod reading;
pub mod state;

pub use agent::{Agent, Cursors};
pub use beginning::Activation;
pub use state::BoardState;
