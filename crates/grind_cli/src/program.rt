//! The top call for a program: it takes the words as the program was given them.
ghost use Rattle.std.specs.Prelude.{◌≡◌, ◌≢◌, ◌↔◌, ℕ, List, [], IfOk, IfErr, OnErr, map};
ghost use Rattle.std.specs.IoError.{error_kind};
ghost use Rattle.std.specs.String.{string_bytes};
ghost use Rattle.grind_command.specs.Commands.{IsSolve};
ghost use Rattle.grind_command.specs.Notes.{Notes};
ghost use Rattle.grind_command.specs.Statuses.{note_of, status_of as ending_status};
ghost use Rattle.grind_answers.specs.Endings.{Ends, Explains};

use crate::run::run;
use grind_command::{Ending, NoteSink, ReportSink, Status, refuse_words};
use grind_outside::{Shelf, Sink};
use std::io::{self, ErrorKind};
use std::thread::Threads;

/// Runs the words, or says why there are none: the top call for a program.
pub fn answer<R: Threads + Sync + AllocGlobal, H: Shelf, K: Sink, E: Sink>(
    rt: &R,
    words: io::Result<Vec<String>>,
    shelf: &mut H,
    out: &mut ReportSink<K>,
    notes: &mut NoteSink<E>,
) -> Status
    // Where the words were taken: what `run` says of them.
    ensures ends { IfOk words (λ taken. (name : List ℕ) → IsSolve (map string_bytes taken.items) name →
        Ends result (H.content shelf.old name) (H.faults shelf.old) (H.faults shelf.new)
        (K.written out.old.sink) (K.written out.new.sink) (K.faults out.old.sink) (K.faults out.new.sink)) }
    ensures words { IfOk words (λ taken.
        (result ≡ Status.WordsRefused) ↔ ((name : List ℕ) → ¬ IsSolve (map string_bytes taken.items) name)) }
    ensures notes { IfOk words (λ taken. (name : List ℕ) → IsSolve (map string_bytes taken.items) name →
        (ending : Ending) × (ending_status ending ≡ result) × Explains (H.content shelf.old name) ending
        × Notes E.written E.refuses notes.old.sink notes.new.sink (note_of ending name)) }

    // Where they could not be taken.
    ensures no_memory { IfErr words (λ error. error_kind error ≡ ErrorKind.OutOfMemory → (result ≡ Status.Memory)
        × Notes E.written E.refuses notes.old.sink notes.new.sink (note_of Ending.Memory [])) }
    ensures no_text { IfErr words (λ error. error_kind error ≢ ErrorKind.OutOfMemory → result ≡ Status.WordsRefused) }
    ensures untouched { OnErr words ((shelf.new ≡ shelf.old) × (out.new ≡ out.old)) }

    // Where they are no command, or no text.
    ensures words_only { result ≡ Status.WordsRefused → K.written out.new.sink ≡ K.written out.old.sink }
    ensures usage { result ≡ Status.WordsRefused →
        Notes E.written E.refuses notes.old.sink notes.new.sink (note_of Ending.WordsRefused []) }
{
    match words {
        Ok(taken) => run(
            rt,
            rt.alloc(),
            taken.as_slice(),
            shelf,
            &mut out.sink,
            &mut notes.sink,
        ),
        Err(error) => refuse_words(notes, error.kind()),
    }
}
