//! Lines and claims of a proof from the text by which reports spell them, and proofs of such lines. It promises nothing of what it
//! reads: cases that are kept as text are compared with what the checker must answer, and a text that spells no line is refused.
#![tactic(auto)]

pub mod made_proof;
pub mod spelled;
pub mod terms;
