//! The program: it takes the words, and answers them on the files and streams of the machine.
#![tactic(auto)]

use grind_cli::program::answer;
use grind_command::{exit_code, notes_to, report_to, words_of};
use grind_outside::FileShelf;
use std::process::ExitCode;

fn main(rt: HostRuntime) -> ExitCode {
    let words = words_of(&rt);
    let mut shelf = FileShelf::new(&rt);
    let mut out = report_to(rt.stdout());
    let mut notes = notes_to(rt.stderr());
    let status = answer(&rt, words, &mut shelf, &mut out, &mut notes);
    exit_code(status)
}
