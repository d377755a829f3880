//! The words of a command, how a run of it ends, and what is then said on the notes.
#![tactic(auto)]

pub mod ending;
pub mod notes;
pub mod refusal;
pub mod status;
pub mod streams;
pub mod words;

pub use ending::{Ending, status_of};
pub use notes::tell;
pub use refusal::Refusal;
pub use status::{Status, exit_code};
pub use streams::{NoteSink, ReportSink, notes_to, refuse_words, report_to};
pub use words::{file_of, words_of};
