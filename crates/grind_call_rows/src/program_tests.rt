//! The words of a command line, and what is answered where there are none.
use grind_cli::program::answer;
use grind_command::{NoteSink, ReportSink, Status, words_of};
use grind_outside::{List, MemoryShelf, SteadySink};
use std::env::FillError;
use std::io::{self, ErrorKind};
use std::process::Abort;
use std::rt::Env;
use std::test::Fail;
use std::thread::Threads;

/// An environment with these words, the program's name first.
#[derive(Drop)]
struct Words<'a> {
    words: &'a [&'a [u8]],
}

impl<'a> Env for Words<'a> {
    fn arg(&self, i: usize, buf: &mut [u8]) -> Result<usize, FillError> {
        let Some(word) = self.words.get(i) else {
            return Err(FillError::NotPresent);
        };
        let count = word.len();
        if count > buf.len() {
            return Err(FillError::TooLong);
        }
        buf[..count].copy_from_slice(word);
        Ok(count)
    }

    fn var(&self, _name: &str, _buf: &mut [u8]) -> Result<usize, FillError> {
        Err(FillError::NotPresent)
    }

    fn var_at(&self, _i: usize, _buf: &mut [u8]) -> Result<usize, FillError> {
        Err(FillError::NotPresent)
    }
}

/// Asserts that these are the words after the program's name.
fn gives_words<R: Abort + AllocGlobal>(rt: &R, words: &[&[u8]], wanted: &[&str]) {
    let made = words_of(&(Words { words }, rt.alloc()));
    assert!(rt; made.is_ok());
    if let Ok(made) = made {
        assert_eq!(rt; made.len(), wanted.len());
        for (word, text) in made.as_slice().iter().zip(wanted) {
            assert_eq!(rt; word.as_str(), *text);
        }
    }
}

/// The name is left out, and no other word: an empty one stays, and so does what follows the second.
#[test]
fn words_after_the_name(rt: HostRuntime) {
    gives_words(&rt, &[b"grind", b"solve", b"t.gr"], &["solve", "t.gr"]);
    gives_words(
        &rt,
        &[b"grind", b"solve", b"", b"t.gr", b"u.gr"],
        &["solve", "", "t.gr", "u.gr"],
    );
    gives_words(&rt, &[b"grind"], &[]);
    gives_words(&rt, &[], &[]);
}

/// Asserts the status and the note of words that could not be taken. No file is read, and nothing
/// is written to the report.
fn ends_without_words<R: Threads + Sync + Abort + AllocGlobal>(
    rt: &R,
    words: io::Result<Vec<String>>,
    status: Status,
    note: &str,
) {
    let alloc = rt.alloc();
    let mut shelf = MemoryShelf::holding(List::new(alloc), List::new(alloc));
    let mut out = ReportSink {
        sink: SteadySink::new(alloc),
    };
    let mut notes = NoteSink {
        sink: SteadySink::new(alloc),
    };
    let ended = answer(rt, words, &mut shelf, &mut out, &mut notes);
    assert_eq!(rt; ended, status);
    assert_eq!(rt; notes.sink.bytes.as_slice(), note.as_bytes());
    assert!(rt; out.sink.bytes.is_empty() && shelf.calls == 0);
}

#[test]
fn words_that_are_no_text(rt: HostRuntime) {
    let words = words_of(&(
        Words {
            words: &[b"grind", b"solve", b"\xff.gr"],
        },
        rt.alloc(),
    ));
    ends_without_words(
        &rt,
        words,
        Status::WordsRefused,
        "grind: usage: solve FILE\n",
    );
}

#[test]
fn no_memory_for_the_words(rt: HostRuntime) {
    let words = Err(io::Error::from(ErrorKind::OutOfMemory));
    ends_without_words(&rt, words, Status::Memory, "grind: out of memory\n");
}
