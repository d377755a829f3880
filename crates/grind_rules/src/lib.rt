//! What each rule lets follow from the claims of its premises. A rule sees claims alone: where its premises stand is
//! for its caller, who may take them from lines of a proof or from elsewhere.
#![tactic(auto)]

mod assumed;
mod clash;
pub mod laws;
pub mod rules;

pub use grind_term_rules::Setting;
pub use rules::rule_allows;
