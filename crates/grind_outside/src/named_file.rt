//! Files that stand in memory.
ghost use Rattle.std.specs.Prelude.{◌≡◌, ◌≤◌, ◌<◌, IfOk, length, option_copied};
ghost use Rattle.grind_outside.specs.NamedFiles.{bytes_of};
ghost use Rattle.grind_outside.specs.Outside.{IfTooLong, OnReadFailed};

use crate::list::List;
use crate::memory::Memory;
use crate::refusal::ReadRefusal;
use std::alloc::Global;

/// A name, and the bytes that stand under it.
#[derive(Debug, PartialEq, Eq, Drop)]
pub struct NamedFile {
    pub name: List<u8>,
    pub bytes: List<u8>,
}

impl NamedFile {
    /// A file of this name with these bytes, both copied.
    pub fn new(alloc: Global, name: &str, bytes: &[u8]) -> Result<NamedFile, Memory>
        ensures { IfOk result (λ file. (file.name ≡ name.now) × (file.bytes ≡ bytes.now)) }
    {
        let mut file = NamedFile {
            name: List::new(alloc),
            bytes: List::new(alloc),
        };
        file.name.extend(name.as_bytes())?;
        file.bytes.extend(bytes)?;
        Ok(file)
    }
}

/// The bytes of the first file of that name.
pub(crate) fn bytes_of<'a>(files: &'a [NamedFile], name: &str) -> Option<&'a [u8]>
    ensures { option_copied result ≡ bytes_of files.now name.now }
{
    let is_named = |file: &&NamedFile| file.name.as_slice() == name.as_bytes();
    let file = files.iter().find(is_named)?;
    Some(file.bytes.as_slice())
}

/// A copy of the bytes, where they are at most `limit`.
pub(crate) fn copied(alloc: Global, bytes: &[u8], limit: u64) -> Result<List<u8>, ReadRefusal>
    ensures whole { IfOk result (λ copy. (copy ≡ bytes.now) × (length bytes.now ≤ limit)) }
    ensures too_long { IfTooLong result (λ named. (named ≡ limit) × (limit < length bytes.now)) }
    ensures failed { OnReadFailed result ⊥ }
{
    if bytes.len() as u64 > limit {
        return Err(ReadRefusal::TooLong { limit });
    }
    let mut copy = List::new(alloc);
    copy.extend(bytes)?;
    Ok(copy)
}
