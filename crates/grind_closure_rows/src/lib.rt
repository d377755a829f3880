//! Single calls on closures, compared with what they must answer: those that no case of `grind_rows` shows.
#![tactic(auto)]

#[cfg(test)]
mod closure_tests;
