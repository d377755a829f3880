//! The parts of a report that answers goals.
ghost use Rattle.std.specs.Prelude.{◌≡◌, ◌≤◌, ◌↔◌, OnOk, OnErr, IsTrue};
ghost use Rattle.grind_outside.specs.Outside.{CountsFault, OnPutFailed, UnlessPutFailed, appended};
ghost use Rattle.grind_report.specs.Report.{header_bytes, end_bytes};
ghost use Rattle.grind_answers.specs.Written.{WritesFront, IsClosedOutcome};

use grind_outside::{Sink, SinkRefusal, write_whole};
use grind_report::report::{Outcome, end_line, header};
use std::alloc::Global;

/// Writes the header of a report.
///
/// # Errors
///
/// The refusal of `out`, or want of memory. Some first bytes of the line were then written.
pub fn write_header<K: Sink>(alloc: Global, out: &mut K) -> Result<(), SinkRefusal>
    ensures ok { OnOk result (K.written out.new ≡ appended (K.written out.old) header_bytes) }
    ensures err { OnErr result (WritesFront (K.written out.old) (K.written out.new) header_bytes) }

    ensures failed { OnPutFailed result (CountsFault (K.faults out.old) (K.faults out.new)) }
    ensures quiet { UnlessPutFailed result (K.faults out.new ≡ K.faults out.old) }
    ensures never_falls { K.faults out.old ≤ K.faults out.new }
{
    let Ok(line) = header(alloc) else {
        return Err(SinkRefusal::Memory);
    };
    write_whole(out, line.as_slice())
}

/// Writes the end line of a report of so many blocks.
///
/// # Errors
///
/// The refusal of `out`, or want of memory. Some first bytes of the line were then written.
pub fn write_end<K: Sink>(alloc: Global, count: u32, out: &mut K) -> Result<(), SinkRefusal>
    ensures ok { OnOk result (K.written out.new ≡ appended (K.written out.old) (end_bytes count)) }
    ensures err { OnErr result (WritesFront (K.written out.old) (K.written out.new) (end_bytes count)) }

    ensures failed { OnPutFailed result (CountsFault (K.faults out.old) (K.faults out.new)) }
    ensures quiet { UnlessPutFailed result (K.faults out.new ≡ K.faults out.old) }
    ensures never_falls { K.faults out.old ≤ K.faults out.new }
{
    let Ok(line) = end_line(alloc, count) else {
        return Err(SinkRefusal::Memory);
    };
    write_whole(out, line.as_slice())
}

/// Whether the outcome is that of a closed goal.
pub fn is_closed(outcome: &Outcome) -> bool
    ensures { IsTrue result ↔ IsClosedOutcome outcome.now }
{
    matches!(outcome, Outcome::Closed(_))
}
