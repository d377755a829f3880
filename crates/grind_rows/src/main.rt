//! Reads cases from files, does what each says, and writes what comes of it; the stored output says what must come. The file
//! `cases` names the files, one a line, in order. A case is a text of directives, one a line, which `directives` lists.
//! A case that is missing, malformed or no text ends the program with a status over 0 and a line on standard error.
#![tactic(auto)]

mod directives;

use directives::follow;
use grind_cases::case::Case;
use grind_cases::unfollowed::Unfollowed;
use grind_outside::{FileShelf, List, Memory, ReadRefusal, Shelf, Sink, StreamSink, write_whole};
use std::alloc::Global;
use std::process::ExitCode;
use std::rt::Files;
use std::str;
use std::thread::Threads;

/// No file of cases has more bytes.
const LONGEST: u64 = 1_000_000;

/// Why the program ends early.
#[derive(Clone, Copy)]
enum Trouble {
    /// The file could not be read, or is no text.
    Unread,
    /// The line of this number is no directive, or asks for what may not be asked for.
    Malformed { line: usize },
    /// The output could not be written.
    Unwritten,
    /// Out of memory.
    Memory,
}

impl From<Memory> for Trouble {
    fn from(_memory: Memory) -> Trouble {
        Trouble::Memory
    }
}

fn main(rt: HostRuntime) -> ExitCode {
    let mut out = StreamSink::new(rt.stdout());
    let index = match read(&rt, rt.alloc(), "cases") {
        Ok(index) => index,
        Err(trouble) => return ended(&rt, "cases", trouble),
    };
    for name in index.as_str().lines() {
        if let Err(trouble) = try_case(&rt, name, &mut out) {
            return ended(&rt, name, trouble);
        }
    }
    ExitCode::from(0)
}

/// Says what was wrong with the file of that name, and with which status the program ends.
fn ended(rt: &impl Eprint, name: &str, trouble: Trouble) -> ExitCode {
    let said = match trouble {
        Trouble::Unread => eprintln!(rt; "grind_rows: {name}: not read, or no text"),
        Trouble::Malformed { line } => eprintln!(rt;
            "grind_rows: {name}: line {line} is malformed"
        ),
        Trouble::Unwritten => eprintln!(rt; "grind_rows: {name}: the output was not written"),
        Trouble::Memory => eprintln!(rt; "grind_rows: {name}: out of memory"),
    };
    match said {
        Ok(()) => ExitCode::from(2),
        Err(_) => ExitCode::from(3),
    }
}

/// The text of the file of that name.
fn read(rt: &impl Files, alloc: Global, name: &str) -> Result<String, Trouble> {
    let bytes = match FileShelf::new(rt).read(alloc, name, LONGEST) {
        Ok(bytes) => bytes,
        Err(ReadRefusal::Memory) => return Err(Trouble::Memory),
        Err(_) => return Err(Trouble::Unread),
    };
    let Ok(text) = str::from_utf8(bytes.as_slice()) else {
        return Err(Trouble::Unread);
    };
    match String::from_str(alloc, text) {
        Ok(text) => Ok(text),
        Err(_) => Err(Trouble::Memory),
    }
}

/// Does what the case of that name says, and writes what comes of it.
fn try_case<R: Threads + Sync + Files + AllocGlobal, K: Sink>(
    rt: &R,
    name: &str,
    out: &mut K,
) -> Result<(), Trouble> {
    let alloc = rt.alloc();
    let text = read(rt, alloc, name)?;
    let mut said = List::new(alloc);
    said.extend(b"== ")?;
    said.extend(name.as_bytes())?;
    said.extend(b"\n")?;
    follow_all(rt, alloc, text.as_str(), &mut said)?;
    match write_whole(out, said.as_slice()) {
        Ok(()) => Ok(()),
        Err(_) => Err(Trouble::Unwritten),
    }
}

/// Follows the lines of a case, and appends what comes of them to what was said.
fn follow_all<R: Threads + Sync>(
    rt: &R,
    alloc: Global,
    text: &str,
    said: &mut List<u8>,
) -> Result<(), Trouble> {
    let mut case = Case::new(alloc);
    let mut number: usize = 0;
    for line in text.lines() {
        number = number.saturating_add(1);
        match follow(rt, alloc, &mut case, line, said) {
            Ok(()) => {}
            Err(Unfollowed::Malformed) => return Err(Trouble::Malformed { line: number }),
            Err(Unfollowed::Memory) => return Err(Trouble::Memory),
        }
    }
    Ok(())
}
