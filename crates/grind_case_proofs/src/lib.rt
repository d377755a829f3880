//! Proofs that a case gives as text: what the checker says of them, and the block of a report that each makes. It promises nothing of
//! what it shows: the stored output of `grind_rows` says what must come. What the calls ask for is tested right before each call.
#![tactic(auto)]

mod blocks;
mod premises;
mod proofs;
pub mod shown;
