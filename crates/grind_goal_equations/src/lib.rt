//! What a goal says of which terms are equal: the equations that its hypotheses and its denied conclusion give, their closure
//! under congruence, and the pairs that they deny. The goal follows by congruence exactly where the closure joins such a pair.
#![tactic(auto)]

mod building;
pub mod fact;
pub mod given;
pub mod known;
pub mod laws;
pub mod refuted;

pub use fact::{Fact, Reading, fact_at};
pub use given::is_equal;
pub use known::{Known, known_of};
pub use laws::ground_goals;
pub use refuted::first_refuted;
