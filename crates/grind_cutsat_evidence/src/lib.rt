//! What stands in the way of a solver of linear integer arithmetic at rest: posts whose readings, cuts or combinations do not
//! fit in 128 bits, and cases that are left at its limit.
#![tactic(auto)]

mod pairs;
mod remaining;
mod unread;

pub use pairs::{Pair, unresolved};
pub use remaining::left;
pub use unread::unreadable;
