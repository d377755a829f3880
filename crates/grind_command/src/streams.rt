//! The streams of a program: one for the report, one for the notes.
ghost use Rattle.std.specs.Prelude.{◌≡◌, ◌≢◌, []};
ghost use Rattle.grind_command.specs.Notes.{Notes};
ghost use Rattle.grind_command.specs.Statuses.{note_of};

use crate::ending::{Ending, status_of};
use crate::notes::tell;
use crate::status::Status;
use grind_outside::{Sink, StreamSink};
use std::io::{ErrorKind, Stderr, Stdout};

/// Where the report goes.
#[derive(Drop)]
pub struct ReportSink<K: Sink> {
    pub sink: K,
}

/// Where the line of a refusal goes.
#[derive(Drop)]
pub struct NoteSink<E: Sink> {
    pub sink: E,
}

/// Standard output, for the report.
pub fn report_to(stream: Stdout) -> ReportSink<StreamSink<Stdout>>
    ensures { result.sink.faults ≡ 0 }
{
    ReportSink {
        sink: StreamSink::new(stream),
    }
}

/// Standard error, for the notes.
pub fn notes_to(stream: Stderr) -> NoteSink<StreamSink<Stderr>>
    ensures { result.sink.faults ≡ 0 }
{
    NoteSink {
        sink: StreamSink::new(stream),
    }
}

/// Says why the words could not be taken: for want of memory, or since one is no text.
pub fn refuse_words<E: Sink>(notes: &mut NoteSink<E>, kind: ErrorKind) -> Status
    ensures memory { kind ≡ ErrorKind.OutOfMemory → (result ≡ Status.Memory)
        × Notes E.written E.refuses notes.old.sink notes.new.sink (note_of Ending.Memory []) }
    ensures words { kind ≢ ErrorKind.OutOfMemory → (result ≡ Status.WordsRefused)
        × Notes E.written E.refuses notes.old.sink notes.new.sink (note_of Ending.WordsRefused []) }
{
    let ending = match kind {
        ErrorKind::OutOfMemory => Ending::Memory,
        _ => Ending::WordsRefused,
    };
    tell(&mut notes.sink, ending, b"");
    status_of(ending)
}
