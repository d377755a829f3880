//! What the rules over terms let follow from the claims of their premises: what the goal and its theorems give, equality,
//! congruence, and formulas as terms. One function for each rule, named as the rule is.
#![tactic(auto)]

pub mod congruence;
pub mod equality;
pub mod instances;
pub mod setting;
pub mod truth;

pub use congruence::is_cong;
pub use equality::{is_back, is_eq, is_refl, is_sym, is_trans};
pub use instances::is_inst;
pub use setting::Setting;
pub use truth::{is_hyp, is_negated, is_truth, is_untruth};
