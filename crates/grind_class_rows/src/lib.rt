//! Single calls on classes, compared with what they must answer: those that no case of `grind_rows` shows.
#![tactic(auto)]

#[cfg(test)]
mod class_tests;
