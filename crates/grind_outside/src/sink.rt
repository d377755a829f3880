//! Where bytes are written.
ghost use Rattle.std.specs.Prelude.{◌≡◌, ◌≤◌, ◌<◌, List, ℕ, Option, length, take, IfOk, IfErr, OnOk, OnErr};
ghost use Rattle.grind_outside.specs.declared.refusal.SinkRefusal.{SinkRefusal};
ghost use Rattle.grind_outside.specs.Outside.{CountsFault, appended, IsFront, OnPutFailed, UnlessPutFailed};

use crate::refusal::SinkRefusal;

/// A place to write to. A sink means the bytes written so far, where it tells them, and a count of
/// faults, which never falls.
pub trait Sink {
    ghost written: { Self → Option (List ℕ) };

    ghost faults: { Self → ℕ };

    // What else is known where a put of a piece was refused: of the sink before it, the piece, the
    // refusal and the sink after it.
    ghost refuses: { Self → List ℕ → SinkRefusal → Self → Type 0 } = { λ _ _ _ _. Unit {0} };

    /// Writes some first bytes of the piece, and says how many. Of a piece with bytes it takes at
    /// least one. An empty piece changes nothing. A refused call writes nothing, and `Failed` comes
    /// only with a counted fault.
    fn put(&mut self, piece: &[u8]) -> Result<usize, SinkRefusal>
        ensures within { IfOk result (λ n. n ≤ length piece.now) }
        ensures some { IfOk result (λ n. 0 < length piece.now → 0 < n) }
        ensures ok { IfOk result (λ n.
            written self.new ≡ appended (written self.old) (take n piece.now)) }
        ensures err { OnErr result (written self.new ≡ written self.old) }
        ensures empty { length piece.now ≡ 0 → (result ≡ Ok 0) × (self.new ≡ self.old) }

        ensures failed { OnPutFailed result (CountsFault (faults self.old) (faults self.new)) }
        ensures quiet { UnlessPutFailed result (faults self.new ≡ faults self.old) }
        ensures never_falls { faults self.old ≤ faults self.new }
        ensures refused { IfErr result (λ refusal.
            refuses self.old piece.now refusal self.new) };
}

/// Writes all the bytes, in as many calls of `put` as it takes. After a refusal, which is that of
/// the last `put`, some first bytes were written.
pub fn write_whole<K: Sink>(sink: &mut K, bytes: &[u8]) -> Result<(), SinkRefusal>
    ensures ok { OnOk result (K.written sink.new ≡ appended (K.written sink.old) bytes.now) }
    ensures err { OnErr result ((front : List ℕ) × IsFront front bytes.now
        × (K.written sink.new ≡ appended (K.written sink.old) front)) }
    ensures last { IfErr result (λ refusal. (before : K) × (rest : List ℕ)
        × K.refuses before rest refusal sink.new) }

    ensures failed { OnPutFailed result (CountsFault (K.faults sink.old) (K.faults sink.new)) }
    ensures quiet { UnlessPutFailed result (K.faults sink.new ≡ K.faults sink.old) }
    ensures never_falls { K.faults sink.old ≤ K.faults sink.new }
{
    let mut rest = bytes;
    while rest.len() > 0 {
        match sink.put(rest) {
            Ok(taken) => rest = rest.split_at(taken).1,
            Err(refusal) => return Err(refusal),
        }
    }
    Ok(())
}
