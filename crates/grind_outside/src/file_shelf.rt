//! Files of the machine.
ghost use Rattle.std.specs.Prelude.{◌≡◌, ◌≤◌, ◌<◌, ◌+◌, ◌^◌, ◌++◌, ℕ, List, None, Err, IfOk, OnErr, IfSome, length};
ghost use Rattle.std.specs.Io.KnownBytes.{Consumes, IsAtEnd};
ghost use Rattle.grind_outside.specs.Outside.{next_count, IfTooLong, OnReadFailed, UnlessReadFailed};

use crate::list::List;
use crate::refusal::ReadRefusal;
use crate::shelf::Shelf;
use std::alloc::Global;
use std::fs;
use std::io::{self, Read};
use std::rt::Files;

/// How many bytes one read asks for.
const PIECE: usize = 8192;

/// The files of the machine, by their paths. It tells nothing of their bytes, and counts a fault
/// for each error of the machine: a file that is missing, that may not be read, or is a folder.
#[derive(Drop)]
pub struct FileShelf<'a, R: Files> {
    pub rt: &'a R,
    pub faults: u64,
}

impl<'a, R: Files> FileShelf<'a, R> {
    /// The files that this runtime reaches.
    pub fn new(rt: &'a R) -> FileShelf<'a, R>
        ensures { result.faults ≡ 0 }
    {
        FileShelf { rt, faults: 0 }
    }
}

impl<'a, R: Files> Shelf for FileShelf<'a, R> {
    ghost content = { λ _ _. None };

    ghost faults = { λ shelf. shelf.faults };

    fn read(&mut self, alloc: Global, name: &str, limit: u64) -> Result<List<u8>, ReadRefusal>
        ensures within { IfOk result (λ bytes. length bytes ≤ limit) }
        ensures too_long { IfTooLong result (λ named. named ≡ limit) }

        ensures failed { OnReadFailed result (self.new.faults ≡ next_count self.old.faults) }
        ensures quiet { UnlessReadFailed result (self.new.faults ≡ self.old.faults) }
        ensures never_falls { self.old.faults ≤ self.new.faults }
    {
        let answer = read_opened(fs::open(self.rt, name), alloc, limit);
        if let Err(ReadRefusal::Failed) = answer {
            self.faults = self.faults.saturating_add(1);
        }
        answer
    }
}

/// All bytes of a file that was opened, where they are at most `limit`. `Failed` is an error where it
/// was opened, or of a read.
pub fn read_opened<F: Read + Drop>(
    opened: io::Result<F>,
    alloc: Global,
    limit: u64,
) -> Result<List<u8>, ReadRefusal>
    ensures refused { OnErr opened (result ≡ Err ReadRefusal.Failed) }
    ensures whole { IfOk opened (λ file. IfOk result (λ bytes. IfSome (F.remaining file) (λ left. bytes ≡ left))) }
    ensures within { IfOk result (λ bytes. length bytes ≤ limit) }
    ensures too_long { IfTooLong result (λ named. named ≡ limit) }
    ensures longer { IfOk opened (λ file.
        IfTooLong result (λ _. IfSome (F.remaining file) (λ left. limit < length left))) }
{
    match opened {
        Ok(mut file) => read_whole(&mut file, alloc, limit),
        Err(_) => Err(ReadRefusal::Failed),
    }
}

/// All bytes that the file has left, where they are at most `limit`. `Failed` is an error of a read.
pub(crate) fn read_whole<F: Read>(
    file: &mut F,
    alloc: Global,
    limit: u64,
) -> Result<List<u8>, ReadRefusal>
    ensures whole { IfOk result (λ bytes. IfSome (F.remaining file.old) (λ left. bytes ≡ left)) }
    ensures within { IfOk result (λ bytes. length bytes ≤ limit) }
    ensures too_long { IfTooLong result (λ named. (named ≡ limit)
        × IfSome (F.remaining file.old) (λ left. limit < length left)) }
{
    let mut bytes = List::new(alloc);
    while read_piece(file, &mut bytes, limit)? > 0 {}
    Ok(bytes)
}

/// Reads once, and appends what came to the bytes. Answers how many came, 0 at the end.
fn read_piece<F: Read>(file: &mut F, bytes: &mut List<u8>, limit: u64) -> Result<usize, ReadRefusal>
    requires { length bytes.old ≤ limit }
    ensures came { IfOk result (λ n. (piece : List ℕ) × (length piece ≡ n)
        × (bytes.new ≡ bytes.old ++ piece)
        × Consumes (F.remaining file.old) (F.remaining file.new) piece) }
    ensures within { IfOk result (λ n. length bytes.old + n ≤ limit) }
    ensures end { IfOk result (λ n. n ≡ 0 → IsAtEnd (F.remaining file.new)) }
    ensures too_long { IfTooLong result (λ named. (named ≡ limit)
        × IfSome (F.remaining file.old) (λ left. limit < length bytes.old + length left)) }
    ensures room { length bytes.old < 2 ^ 32 }
{
    let room = limit - bytes.len() as u64;
    let mut piece = [0u8; PIECE];
    let Ok(count) = file.read(&mut piece) else {
        return Err(ReadRefusal::Failed);
    };
    if count as u64 > room {
        return Err(ReadRefusal::TooLong { limit });
    }
    bytes.extend(&piece[..count])?;
    Ok(count)
}
