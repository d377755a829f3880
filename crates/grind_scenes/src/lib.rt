//! Classes of one node each, joined where that is asked, with marks and generations that fit them: what a test or a
//! measurement gives to `truth_step` and to `matches`.
#![tactic(auto)]

pub mod grouping;
pub mod marking;
pub mod matching;
pub mod stepping;

pub use grouping::{all_alone, join};
pub use marking::{marks_but, marks_of, zeros};
pub use matching::first_matches;
pub use stepping::{are_marked_formulas, is_formula, next_step};
