//! The two units of linear integer arithmetic that look at active terms: two whole numbers are pinched where neither is over
//! the other, and an unknown comparison or equation is settled by a fact or by the readings alone.
#![tactic(auto)]

mod known;
mod posts;
pub mod units;

pub use units::pinches_two_terms::{Pinch, pinches_two_terms};
pub use units::settles::settles;
