//! The directives of a case. Empty lines and those that begin with `--` say nothing.
//!
//! | Directive | What it does |
//! |---|---|
//! | `file NAME` | begins a file of the shelf |
//! | `text TEXT`, `line TEXT` | adds the text to the file, without and with a line feed |
//! | `times N TEXT` | adds the text so many times |
//! | `count N M TEXT` | adds the text for each number from N to M, which stands in place of each `#` |
//! | `bytes N B B ..` | adds the bytes of these numbers, so many times |
//! | `words WORD WORD ..` | the words of the command line |
//! | `fail shelf N ..`, `fail out N ..`, `fail notes N ..` | these calls fail, numbered from 0 |
//! | `most out N`, `most notes N` | a call takes at most so many bytes |
//! | `run` | runs, and shows status, output and notes; what is not shown is empty |
//! | `run goals` | shows the lines of the output that begin with `goal` in place of the output |
//! | `run reading` | shows `read` for the statuses 0 and 1 without notes, which say that the file is a theory |
//! | `sweep` | runs again and again, with one call of the output failing, until there is no such call |
//! | `branch PARENT LINE CLAIM` | adds a branch to the proof |
//! | `proof LINE` | adds a line to the proof, without its number |
//! | `change N LINE` | puts a line in place of line N |
//! | `verdict`, `verdict JOBS` | what the checker says of the proof, on one thread or by so many jobs |
//! | `print` | the block of a report that closes the first goal by the proof, typed or not |
//! | `judge N LINE` | whether the line is typed as line N of the proof |
use grind_case_proofs::shown::{show_block, show_judgement, show_verdict};
use grind_cases::case::Case;
use grind_cases::preparing::prepare;
use grind_cases::runs::{Show, show_run, show_sweep};
use grind_cases::texts::split;
use grind_cases::unfollowed::Unfollowed;
use grind_outside::List;
use std::alloc::Global;
use std::thread::Threads;

/// Follows a line.
///
/// # Errors
///
/// `Malformed` where it is no directive, or asks for what may not be asked for.
pub fn follow<R: Threads + Sync>(
    rt: &R,
    alloc: Global,
    case: &mut Case,
    line: &str,
    said: &mut List<u8>,
) -> Result<(), Unfollowed> {
    if line.is_empty() || line.starts_with("--") {
        return Ok(());
    }
    let (word, rest) = split(line);
    match word {
        "run" => ran(rt, alloc, case, rest, said),
        "sweep" => show_sweep(rt, alloc, case, said),
        "verdict" => show_verdict(rt, alloc, case, rest, said),
        "print" if rest.is_empty() => show_block(alloc, case, said),
        "judge" => judged(alloc, case, rest, said),
        _ => prepare(alloc, case, word, rest),
    }
}

fn ran<R: Threads + Sync>(
    rt: &R,
    alloc: Global,
    case: &Case,
    rest: &str,
    said: &mut List<u8>,
) -> Result<(), Unfollowed> {
    let show = match rest {
        "" => Show::All,
        "goals" => Show::Goals,
        "reading" => Show::Reading,
        _ => return Err(Unfollowed::Malformed),
    };
    show_run(rt, alloc, case, show, said)
}

fn judged(alloc: Global, case: &Case, rest: &str, said: &mut List<u8>) -> Result<(), Unfollowed> {
    let (number, line) = split(rest);
    let Ok(number) = number.parse::<u32>() else {
        return Err(Unfollowed::Malformed);
    };
    show_judgement(alloc, case, number, line, said)
}
