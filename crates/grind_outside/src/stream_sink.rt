//! Streams of the machine.
ghost use Rattle.std.specs.Prelude.{◌≡◌, ◌≤◌, ◌<◌, Ok, None, IfOk, IfErr, OnErr, IfSome, IsNone, length, take};
ghost use Rattle.std.specs.Io.KnownBytes.{Appends, Keeps};
ghost use Rattle.grind_outside.specs.Outside.{next_count, OnPutFailed, UnlessPutFailed};

use crate::refusal::SinkRefusal;
use crate::sink::Sink;
use std::io::Write;

/// A stream of the machine, as standard output is. As a sink it tells nothing of the bytes written,
/// since nothing is known of those of the machine; `put` says what a stream holds whose bytes are
/// known. It counts a fault for each error of the stream, and where the stream takes nothing.
#[derive(Drop)]
pub struct StreamSink<W: Write> {
    pub stream: W,
    pub faults: u64,
}

impl<W: Write> StreamSink<W> {
    /// A sink that writes to this stream.
    pub fn new(stream: W) -> StreamSink<W>
        ensures stream { result.stream ≡ stream }
        ensures faults { result.faults ≡ 0 }
    {
        StreamSink { stream, faults: 0 }
    }
}

impl<W: Write> Sink for StreamSink<W> {
    ghost written = { λ _. None };

    ghost faults = { λ sink. sink.faults };

    /// Writes once. The count that is answered is how many first bytes the stream took, and a
    /// refused call leaves what the stream holds as it was.
    fn put(&mut self, piece: &[u8]) -> Result<usize, SinkRefusal>
        ensures within { IfOk result (λ n. n ≤ length piece.now) }
        ensures some { IfOk result (λ n. 0 < length piece.now → 0 < n) }
        ensures took { IfOk result (λ n.
            Appends (W.contents self.old.stream) (W.contents self.new.stream) (take n piece.now)) }
        ensures kept { OnErr result (Keeps (W.contents self.old.stream) (W.contents self.new.stream)) }
        ensures empty { length piece.now ≡ 0 → (result ≡ Ok 0) × (self.new ≡ self.old) }

        ensures fails { IfErr result (λ refusal. refusal ≡ SinkRefusal.Failed) }
        ensures failed { OnPutFailed result (self.new.faults ≡ next_count self.old.faults) }
        ensures quiet { UnlessPutFailed result (self.new.faults ≡ self.old.faults) }
        ensures never_falls { self.old.faults ≤ self.new.faults }
    {
        if piece.is_empty() {
            return Ok(0);
        }
        match write_some(&mut self.stream, piece) {
            Some(taken) => Ok(taken),
            None => {
                self.faults = self.faults.saturating_add(1);
                Err(SinkRefusal::Failed)
            }
        }
    }
}

/// Writes once, and answers how many first bytes of the piece were taken. None is an error of the
/// stream, or a stream that takes nothing.
fn write_some<W: Write>(stream: &mut W, piece: &[u8]) -> Option<usize>
    ensures some { IfSome result (λ n. 0 < n) }
    ensures within { IfSome result (λ n. n ≤ length piece.now) }
    ensures written { IfSome result (λ n.
        Appends (W.contents stream.old) (W.contents stream.new) (take n piece.now)) }
    ensures none { IsNone result → Keeps (W.contents stream.old) (W.contents stream.new) }
{
    match stream.write(piece) {
        Ok(taken) if taken > 0 => Some(taken),
        _ => None,
    }
}
