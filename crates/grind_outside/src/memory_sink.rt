//! A sink in memory, whose calls fail where they are told to.
ghost use Rattle.std.specs.Prelude.{◌≡◌, ◌≤◌, ◌<◌, ◌↔◌, ◌++◌, [], Ok, Some, Contains, IsErrOf, IsTrue, IfOk, OnErr, length, min, take};
ghost use Rattle.grind_outside.specs.Outside.{next_count, OnPutFailed, UnlessPutFailed};

use crate::list::List;
use crate::refusal::SinkRefusal;
use crate::sink::Sink;
use std::alloc::Global;

/// Bytes in memory, of which a call takes at most `most`. The calls are numbered from 0, and those
/// whose numbers stand in `failing` fail. A call past the last number keeps that number, and a call
/// with an empty piece has none.
#[derive(Debug, Drop)]
pub struct MemorySink {
    pub bytes: List<u8>,
    pub most: usize,
    pub failing: List<u64>,
    pub calls: u64,
    pub faults: u64,
    ghost takes_some: { 0 < most },
}

impl MemorySink {
    /// A sink without bytes, of which no call was made.
    pub fn new(alloc: Global, most: usize, failing: List<u64>) -> MemorySink
        requires { 0 < most }
        ensures bytes { result.bytes ≡ [] }
        ensures most { result.most ≡ most }
        ensures failing { result.failing ≡ failing }
        ensures calls { result.calls ≡ 0 }
        ensures faults { result.faults ≡ 0 }
    {
        MemorySink {
            bytes: List::new(alloc),
            most,
            failing,
            calls: 0,
            faults: 0,
        }
    }
}

impl Sink for MemorySink {
    ghost written = { λ sink. Some sink.bytes };

    ghost faults = { λ sink. sink.faults };

    fn put(&mut self, piece: &[u8]) -> Result<usize, SinkRefusal>
        ensures takes { IfOk result (λ n. n ≡ min (length piece.now) self.old.most) }
        ensures ok { IfOk result (λ n. self.new.bytes ≡ self.old.bytes ++ take n piece.now) }
        ensures err { OnErr result (self.new.bytes ≡ self.old.bytes) }
        ensures fails { 0 < length piece.now →
            (IsErrOf result SinkRefusal.Failed ↔ Contains self.old.failing self.old.calls) }
        ensures empty { length piece.now ≡ 0 → (result ≡ Ok 0) × (self.new ≡ self.old) }

        ensures failed { OnPutFailed result (self.new.faults ≡ next_count self.old.faults) }
        ensures quiet { UnlessPutFailed result (self.new.faults ≡ self.old.faults) }
        ensures never_falls { self.old.faults ≤ self.new.faults }
        ensures calls { 0 < length piece.now → self.new.calls ≡ next_count self.old.calls }
        ensures most { self.new.most ≡ self.old.most }
        ensures failing { self.new.failing ≡ self.old.failing }
    {
        if piece.is_empty() {
            return Ok(0);
        }
        let fails = self.failing.as_slice().contains(&self.calls);
        self.calls = self.calls.saturating_add(1);
        if fails {
            self.faults = self.faults.saturating_add(1);
            return Err(SinkRefusal::Failed);
        }
        let taken = piece.len().min(self.most);
        self.bytes.extend(&piece[..taken])?;
        Ok(taken)
    }
}
