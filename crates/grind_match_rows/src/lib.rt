//! Matches of theorems by single calls, compared with what they must be.
#![tactic(auto)]

#[cfg(test)]
mod ematch_tests;
