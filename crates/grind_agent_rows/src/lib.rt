//! The next consequence by single calls, compared with what it must be.
#![tactic(auto)]

#[cfg(test)]
mod truth_tests;
