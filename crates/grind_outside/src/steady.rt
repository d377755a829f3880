//! A shelf and a sink in memory that never fail.
ghost use Rattle.std.specs.Prelude.{◌≡◌, ◌≤◌, ◌<◌, ◌++◌, [], Ok, Some, IfOk, OnErr, length, unwrap_or};
ghost use Rattle.grind_outside.specs.NamedFiles.{bytes_of};
ghost use Rattle.grind_outside.specs.Outside.{IfTooLong, OnReadFailed, OnPutFailed};

use crate::list::List;
use crate::named_file::{NamedFile, bytes_of, copied};
use crate::refusal::{ReadRefusal, SinkRefusal};
use crate::shelf::Shelf;
use crate::sink::Sink;
use std::alloc::Global;

/// Files in memory whose reads never fail. Of two files of one name the first counts, and a name
/// that is not held reads as a file without bytes.
#[derive(Debug, Drop)]
pub struct SteadyShelf {
    pub files: List<NamedFile>,
}

impl SteadyShelf {
    /// A shelf of these files.
    pub fn holding(files: List<NamedFile>) -> SteadyShelf
        ensures { result.files ≡ files }
    {
        SteadyShelf { files }
    }
}

impl Shelf for SteadyShelf {
    ghost content = { λ shelf name. Some (unwrap_or (bytes_of shelf.files name) []) };

    ghost faults = { λ _. 0 };

    fn read(&mut self, alloc: Global, name: &str, limit: u64) -> Result<List<u8>, ReadRefusal>
        ensures whole { IfOk result (λ bytes.
            bytes ≡ unwrap_or (bytes_of self.old.files name.now) []) }
        ensures within { IfOk result (λ bytes. length bytes ≤ limit) }
        ensures too_long { IfTooLong result (λ named. (named ≡ limit)
            × (limit < length (unwrap_or (bytes_of self.old.files name.now) []))) }
        ensures never_fails { OnReadFailed result ⊥ }
        ensures keeps { self.new ≡ self.old }
    {
        match bytes_of(self.files.as_slice(), name) {
            Some(bytes) => copied(alloc, bytes, limit),
            None => Ok(List::new(alloc)),
        }
    }
}

/// Bytes in memory, which take every piece whole. A put never fails.
#[derive(Debug, Drop)]
pub struct SteadySink {
    pub bytes: List<u8>,
}

impl SteadySink {
    /// A sink without bytes.
    pub fn new(alloc: Global) -> SteadySink
        ensures { result.bytes ≡ [] }
    {
        SteadySink {
            bytes: List::new(alloc),
        }
    }
}

impl Sink for SteadySink {
    ghost written = { λ sink. Some sink.bytes };

    ghost faults = { λ _. 0 };

    fn put(&mut self, piece: &[u8]) -> Result<usize, SinkRefusal>
        ensures takes { IfOk result (λ n. n ≡ length piece.now) }
        ensures ok { IfOk result (λ _. self.new.bytes ≡ self.old.bytes ++ piece.now) }
        ensures err { OnErr result (self.new ≡ self.old) }
        ensures empty { length piece.now ≡ 0 → (result ≡ Ok 0) × (self.new ≡ self.old) }
        ensures never_fails { OnPutFailed result ⊥ }
    {
        if piece.is_empty() {
            return Ok(0);
        }
        self.bytes.extend(piece)?;
        Ok(piece.len())
    }
}
