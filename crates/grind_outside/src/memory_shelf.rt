//! A shelf in memory, whose calls fail where they are told to.
ghost use Rattle.std.specs.Prelude.{◌≡◌, ◌≤◌, ◌<◌, ◌↔◌, ◌⊎◌, ℕ, List, Contains, IsErrOf, IsTrue, IfOk, length};
ghost use Rattle.grind_outside.specs.NamedFiles.{bytes_of};
ghost use Rattle.grind_outside.specs.Outside.{next_count, IfTooLong, OnReadFailed, UnlessReadFailed};

use crate::list::List;
use crate::named_file::{NamedFile, bytes_of, copied};
use crate::refusal::ReadRefusal;
use crate::shelf::Shelf;
use std::alloc::Global;

/// Files in memory. Of two files of one name the first counts. The calls are numbered from 0, and
/// those whose numbers stand in `failing` fail. A call past the last number keeps that number.
#[derive(Debug, Drop)]
pub struct MemoryShelf {
    pub files: List<NamedFile>,
    pub failing: List<u64>,
    pub calls: u64,
    pub faults: u64,
}

impl MemoryShelf {
    /// A shelf of these files, of which no call was made.
    pub fn holding(files: List<NamedFile>, failing: List<u64>) -> MemoryShelf
        ensures { result ≡ record { files = files; failing = failing; calls = 0; faults = 0 } }
    {
        MemoryShelf {
            files,
            failing,
            calls: 0,
            faults: 0,
        }
    }

    /// Counts a call, and says whether it is one of the failing.
    fn begin(&mut self) -> bool
        ensures fails { IsTrue result ↔ Contains self.old.failing self.old.calls }
        ensures counted { self.new ≡ record self.old { calls = next_count self.old.calls } }
    {
        let fails = self.failing.as_slice().contains(&self.calls);
        self.calls = self.calls.saturating_add(1);
        fails
    }
}

impl Shelf for MemoryShelf {
    ghost content = { λ shelf name. bytes_of shelf.files name };

    ghost faults = { λ shelf. shelf.faults };

    fn read(&mut self, alloc: Global, name: &str, limit: u64) -> Result<List<u8>, ReadRefusal>
        ensures whole { IfOk result (λ bytes. bytes_of self.old.files name.now ≡ Some bytes) }
        ensures within { IfOk result (λ bytes. length bytes ≤ limit) }
        ensures too_long { IfTooLong result (λ named. (named ≡ limit)
            × ((bytes : List ℕ) × (bytes_of self.old.files name.now ≡ Some bytes) × (limit < length bytes))) }
        ensures fails { IsErrOf result ReadRefusal.Failed ↔ (Contains self.old.failing self.old.calls
            ⊎ (bytes_of self.old.files name.now ≡ None)) }

        ensures failed { OnReadFailed result (self.new.faults ≡ next_count self.old.faults) }
        ensures quiet { UnlessReadFailed result (self.new.faults ≡ self.old.faults) }
        ensures never_falls { self.old.faults ≤ self.new.faults }
        ensures calls { self.new.calls ≡ next_count self.old.calls }
        ensures files { self.new.files ≡ self.old.files }
        ensures failing { self.new.failing ≡ self.old.failing }
    {
        let fails = self.begin();
        match bytes_of(self.files.as_slice(), name) {
            Some(bytes) if !fails => copied(alloc, bytes, limit),
            _ => {
                self.faults = self.faults.saturating_add(1);
                Err(ReadRefusal::Failed)
            }
        }
    }
}
