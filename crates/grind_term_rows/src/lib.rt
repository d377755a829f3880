//! Single calls on terms, theorems and signatures, compared with what they must answer: those that no case of `grind_rows` shows.
#![tactic(auto)]

#[cfg(test)]
mod signature_tests;
#[cfg(test)]
mod term_tests;
#[cfg(test)]
mod theorem_tests;
