//! Single calls on lists, shelves and sinks, streams and files of the machine, the words of a program, and judges, compared with what
//! they must answer: those that no case of `grind_rows` shows.
#![tactic(auto)]

#[cfg(test)]
mod judge_tests;
#[cfg(test)]
mod meeting_tests;
#[cfg(test)]
mod outside_tests;
#[cfg(test)]
mod program_tests;
#[cfg(test)]
mod stream_tests;
