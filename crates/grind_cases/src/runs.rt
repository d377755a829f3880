//! Runs over shelves and sinks in memory.
ghost use Rattle.std.specs.Prelude.{◌<◌};

use crate::case::Case;
use crate::texts::{put, show_part};
use crate::unfollowed::Unfollowed;
use grind_cli::run::run;
use grind_command::Status;
use grind_outside::{List, Memory, MemoryShelf, MemorySink, NamedFile};
use std::alloc::Global;
use std::thread::Threads;

/// A sweep has no more runs.
const MOST_RUNS: u64 = 10_000;

/// What is shown of a run.
#[derive(Clone, Copy)]
pub enum Show {
    /// Status, output and notes.
    All,
    /// The verdicts in place of the output.
    Goals,
    /// Whether the file was read as a theory.
    Reading,
}

/// What a run left.
#[derive(Drop)]
struct Left {
    status: Status,
    out: List<u8>,
    notes: List<u8>,
}

/// Runs the case once, and shows what came of it.
///
/// # Errors
///
/// `Malformed` where a sink would take nothing.
pub fn show_run<R: Threads + Sync>(
    rt: &R,
    alloc: Global,
    case: &Case,
    show: Show,
    said: &mut List<u8>,
) -> Result<(), Unfollowed> {
    let failing = copied(alloc, &case.out.failing)?;
    let left = left_by(rt, alloc, case, failing)?;
    show_left(alloc, &left, show, said)?;
    Ok(())
}

fn show_left(alloc: Global, left: &Left, show: Show, said: &mut List<u8>) -> Result<(), Memory> {
    match show {
        Show::All => show_bytes(alloc, left, said),
        Show::Goals => show_goals(alloc, left, said),
        Show::Reading => show_reading(alloc, left, said),
    }
}

/// Runs the case, with these calls of the output failing.
fn left_by<R: Threads + Sync>(
    rt: &R,
    alloc: Global,
    case: &Case,
    failing: List<u64>,
) -> Result<Left, Unfollowed> {
    if case.out.most == 0 || case.notes.most == 0 {
        return Err(Unfollowed::Malformed);
    }
    let mut shelf = shelf_of(alloc, case)?;
    let mut out = MemorySink::new(alloc, case.out.most, failing);
    let notes_failing = copied(alloc, &case.notes.failing)?;
    let mut notes = MemorySink::new(alloc, case.notes.most, notes_failing);
    let words = case.words.as_slice();
    let status = run(rt, alloc, words, &mut shelf, &mut out, &mut notes);
    Ok(Left {
        status,
        out: out.bytes,
        notes: notes.bytes,
    })
}

/// The shelf of the case.
fn shelf_of(alloc: Global, case: &Case) -> Result<MemoryShelf, Memory> {
    let mut files = List::new(alloc);
    for file in case.files.as_slice() {
        files.push(NamedFile::new(alloc, file.name.as_str(), file.bytes.as_slice())?)?;
    }
    let failing = copied(alloc, &case.shelf)?;
    Ok(MemoryShelf::holding(files, failing))
}

fn copied(alloc: Global, numbers: &List<u64>) -> Result<List<u64>, Memory> {
    let mut list = List::new(alloc);
    list.extend(numbers.as_slice())?;
    Ok(list)
}

fn show_status(alloc: Global, status: Status, said: &mut List<u8>) -> Result<(), Memory> {
    let line = format!(in alloc; "status {}\n", status.number())?;
    put(said, line.as_str())
}

fn show_bytes(alloc: Global, left: &Left, said: &mut List<u8>) -> Result<(), Memory> {
    show_status(alloc, left.status, said)?;
    show_part(alloc, "out", &left.out, said)?;
    show_part(alloc, "notes", &left.notes, said)
}

fn show_goals(alloc: Global, left: &Left, said: &mut List<u8>) -> Result<(), Memory> {
    show_status(alloc, left.status, said)?;
    for line in left.out.as_slice().split(|byte| *byte == b'\n') {
        if line.starts_with(b"goal ") {
            said.extend(line)?;
            said.push(b'\n')?;
        }
    }
    show_part(alloc, "notes", &left.notes, said)
}

fn show_reading(alloc: Global, left: &Left, said: &mut List<u8>) -> Result<(), Memory> {
    if left.status.number() <= 1 && left.notes.is_empty() {
        return put(said, "read\n");
    }
    show_bytes(alloc, left, said)
}

/// Runs the case with call 0 of the output failing, with call 1 failing, and so on, until no call failed, and shows the status and
/// how many bytes came out each time.
///
/// # Errors
///
/// `Malformed` where a sink would take nothing, or the runs do not end.
pub fn show_sweep<R: Threads + Sync>(
    rt: &R,
    alloc: Global,
    case: &Case,
    said: &mut List<u8>,
) -> Result<(), Unfollowed> {
    let whole = left_by(rt, alloc, case, List::new(alloc))?;
    for call in 0..MOST_RUNS {
        let mut failing = List::new(alloc);
        failing.push(call)?;
        let left = left_by(rt, alloc, case, failing)?;
        show_prefix(alloc, call, &whole, &left, said)?;
        if left.status != Status::WriteFault {
            return Ok(());
        }
    }
    Err(Unfollowed::Malformed)
}

/// One run of a sweep.
fn show_prefix(
    alloc: Global,
    call: u64,
    whole: &Left,
    left: &Left,
    said: &mut List<u8>,
) -> Result<(), Memory> {
    let status = left.status.number();
    let count = left.out.len();
    let kind = if whole.out.as_slice().starts_with(left.out.as_slice()) {
        "first bytes"
    } else {
        "other bytes"
    };
    let line = format!(in alloc; "call {call}: status {status}, {count} {kind}\n")?;
    put(said, line.as_str())
}
