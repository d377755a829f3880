//! Single calls on goals that are read from a file, compared with what they must answer: an explanation, and instances of a theorem.
#![tactic(auto)]

#[cfg(test)]
mod explain_tests;
#[cfg(test)]
mod instance_tests;
