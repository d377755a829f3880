//! The theory file of a name, read from a shelf.
ghost use Rattle.std.specs.Prelude.{◌≡◌, ◌≢◌, IfOk, IfErr, OnOk};
ghost use Rattle.grind_theory.specs.Theories.{AreDeclared};
ghost use Rattle.grind_command.specs.Statuses.{status_of as ending_status};
ghost use Rattle.grind_theory_files.specs.TheoryFiles.{ReadsTheory, ReadsNone};

use crate::reader::{ReaderRefusal, theory_of};
use grind_command::{Ending, Status};
use grind_outside::{ReadRefusal, Shelf};
use grind_theory::theory::Theory;
use std::alloc::Global;

/// How many bytes a theory file may have.
const MAX_THEORY_BYTES: u64 = 4_194_304;

/// The theory in the file of that name.
///
/// # Errors
///
/// How the run ends where there is none: the file cannot be read or is longer than its limit, its bytes are no theory,
/// or memory is wanting.
pub fn read_theory<H: Shelf>(alloc: Global, name: &str, shelf: &mut H) -> Result<Theory, Ending>
    ensures ok { IfOk result (ReadsTheory (H.content shelf.old name.now)) }
    ensures declared { IfOk result (λ theory. AreDeclared theory.signature theory.goals) }
    ensures err { IfErr result (λ ending.
        ReadsNone ending (H.content shelf.old name.now) (H.faults shelf.old) (H.faults shelf.new)) }

    // The count of faults moves only where the reading failed.
    ensures quiet { OnOk result (H.faults shelf.new ≡ H.faults shelf.old) }
    ensures calm { IfErr result (λ ending.
        ending_status ending ≢ Status.ReadFault → H.faults shelf.new ≡ H.faults shelf.old) }
{
    let bytes = match shelf.read(alloc, name, MAX_THEORY_BYTES) {
        Ok(bytes) => bytes,
        Err(ReadRefusal::Failed) => return Err(Ending::ReadFault),
        Err(ReadRefusal::TooLong { .. }) => return Err(Ending::TooLong),
        Err(ReadRefusal::Memory) => return Err(Ending::Memory),
    };
    match theory_of(alloc, bytes.as_slice()) {
        Ok(theory) => Ok(theory),
        Err(ReaderRefusal::Refused(refusal)) => Err(Ending::Refused(refusal)),
        Err(ReaderRefusal::Memory) => Err(Ending::Memory),
    }
}
