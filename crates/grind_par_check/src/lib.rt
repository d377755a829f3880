//! The check of a large proof on many threads. Whatever the number of jobs, the verdict is the one that the checker
//! of one thread is specified to give: the first bad branch, or else the first bad line.
#![tactic(auto)]

pub mod check;
pub mod judge;

pub use check::{check_parallel, one_verdict};
pub use judge::{Judge, first_bad, one_answer};
