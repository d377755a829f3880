//! The top call: from the words to a report.
ghost use Rattle.std.specs.Prelude.{◌≡◌, ◌≢◌, ◌⊎◌, ◌↔◌, ◌<◌, ◌≤◌, ◌^◌, ℕ, List, [], Option, Some, length, map};
ghost use Rattle.std.specs.String.{string_bytes};
ghost use Rattle.grind_outside.specs.Outside.{CountsFault};
ghost use Rattle.grind_command.specs.Commands.{IsSolve};
ghost use Rattle.grind_theory.specs.Theories.{AreDeclared};
ghost use Rattle.grind_answers.specs.Endings.{Ends, EndsOnTheory, Explains, IsAnswer};
ghost use Rattle.grind_command.specs.Notes.{Notes};
ghost use Rattle.grind_command.specs.Statuses.{note_of, status_of as ending_status};
ghost use Rattle.grind_theory_files.specs.TheoryFiles.{TheoryOf, max_theory_bytes};
ghost use Rattle.grind_theory.specs.declared.theory.Theory.{Theory as ATheory};

use crate::writing::write_report;
use grind_command::{Ending, Status, file_of, status_of, tell};
use grind_outside::{Shelf, Sink, SinkRefusal};
use grind_theory::theory::Theory;
use grind_theory_files::{one_theory_of, read_theory};
use std::alloc::Global;
use std::thread::Threads;

/// Does what the words say, `solve FILE`: reads the theory file from the shelf, solves each of its
/// goals and writes the report to `out`, each block as soon as its goal is solved. What is refused
/// is said in one line on `notes`.
pub fn run<R: Threads + Sync, H: Shelf, K: Sink, E: Sink>(
    _rt: &R,
    alloc: Global,
    words: &[String],
    shelf: &mut H,
    out: &mut K,
    notes: &mut E,
) -> Status
    // Where each status comes, and what then stands on `out`.
    ensures ends { (name : List ℕ) → IsSolve (map string_bytes words.now) name →
        Ends result (H.content shelf.old name) (H.faults shelf.old) (H.faults shelf.new)
        (K.written out.old) (K.written out.new) (K.faults out.old) (K.faults out.new) }
    ensures words { (result ≡ Status.WordsRefused) ↔ ((name : List ℕ) → ¬ IsSolve (map string_bytes words.now) name) }
    ensures words_only { result ≡ Status.WordsRefused → K.written out.new ≡ K.written out.old }

    // A file that stands on the shelf, where neither the shelf nor `out` counts a fault.
    ensures complete { (name bytes : List ℕ) (theory : ATheory) → IsSolve (map string_bytes words.now) name →
        H.content shelf.old name ≡ Some bytes → length bytes ≤ max_theory_bytes → TheoryOf bytes theory →
        ¬ CountsFault (H.faults shelf.old) (H.faults shelf.new) → ¬ CountsFault (K.faults out.old) (K.faults out.new) →
        IsAnswer result ⊎ (result ≡ Status.Memory) }
    ensures no_theory { (name bytes : List ℕ) → IsSolve (map string_bytes words.now) name →
        H.content shelf.old name ≡ Some bytes → length bytes ≤ max_theory_bytes → ((theory : ATheory) → ¬ TheoryOf bytes theory) →
        ¬ CountsFault (H.faults shelf.old) (H.faults shelf.new) →
        (result ≡ Status.TheoryRefused) ⊎ (result ≡ Status.Memory) }
    ensures long { (name bytes : List ℕ) → IsSolve (map string_bytes words.now) name →
        H.content shelf.old name ≡ Some bytes → max_theory_bytes < length bytes →
        ¬ CountsFault (H.faults shelf.old) (H.faults shelf.new) →
        (result ≡ Status.TooLong) ⊎ (result ≡ Status.Memory) }

    // The counts of faults move only where the status says so.
    ensures shelf_quiet { result ≢ Status.ReadFault → H.faults shelf.new ≡ H.faults shelf.old }
    ensures out_quiet { result ≢ Status.WriteFault → K.faults out.new ≡ K.faults out.old }

    // What stands on the notes: the line of an ending of this status, and of a refused file the first fault of its bytes.
    ensures notes { (name : List ℕ) → IsSolve (map string_bytes words.now) name →
        (ending : Ending) × (ending_status ending ≡ result) × Explains (H.content shelf.old name) ending
        × Notes E.written E.refuses notes.old notes.new (note_of ending name) }
    ensures usage { result ≡ Status.WordsRefused →
        Notes E.written E.refuses notes.old notes.new (note_of Ending.WordsRefused []) }
{
    let Some(name) = file_of(words) else {
        tell(notes, Ending::WordsRefused, b"");
        return Status::WordsRefused;
    };
    let ending = solve(alloc, name, shelf, out);
    tell(notes, ending, name.as_bytes());
    status_of(ending)
}

/// Reads the theory file of that name, and solves it.
fn solve<H: Shelf, K: Sink>(alloc: Global, name: &str, shelf: &mut H, out: &mut K) -> Ending
    ensures ends { Ends (ending_status result) (H.content shelf.old name.now) (H.faults shelf.old) (H.faults shelf.new)
        (K.written out.old) (K.written out.new) (K.faults out.old) (K.faults out.new) }
    ensures why { Explains (H.content shelf.old name.now) result }
    ensures shelf_quiet { ending_status result ≢ Status.ReadFault → H.faults shelf.new ≡ H.faults shelf.old }
    ensures out_quiet { ending_status result ≢ Status.WriteFault → K.faults out.new ≡ K.faults out.old }
{
    one_theory_of();
    let theory = match read_theory(alloc, name, shelf) {
        Ok(theory) => theory,
        Err(ending) => return ending,
    };
    solve_theory(alloc, &theory, out)
}

/// Solves the goals of the theory, and writes their report.
fn solve_theory<K: Sink>(alloc: Global, theory: &Theory, out: &mut K) -> Ending
    requires { AreDeclared theory.now.signature theory.now.goals }
    ensures ends { EndsOnTheory (ending_status result) theory.now (K.written out.old) (K.written out.new) (K.faults out.old) (K.faults out.new) }
    ensures why { (content : Option (List ℕ)) → Explains content result }
    ensures out_quiet { ending_status result ≢ Status.WriteFault → K.faults out.new ≡ K.faults out.old }
{
    let goals = theory.goals.as_slice();
    match write_report(alloc, &theory.signature, &theory.lemmas, goals, out) {
        Ok(true) => Ending::AllClosed,
        Ok(false) => Ending::SomeOpen,
        Err(SinkRefusal::Failed) => Ending::WriteFault,
        Err(SinkRefusal::Memory) => Ending::Memory,
    }
}
