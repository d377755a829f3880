//! Where files are read.
ghost use Rattle.std.specs.Prelude.{◌≡◌, ◌≤◌, ◌<◌, List, ℕ, Option, length, IfOk, IfSome};
ghost use Rattle.grind_outside.specs.Outside.{CountsFault, OnReadFailed, UnlessReadFailed, IfTooLong};

use crate::list::List;
use crate::refusal::ReadRefusal;
use std::alloc::Global;

/// Files that are read by their names. A shelf means the bytes that stand under each name, where it
/// tells them, and a count of faults, which never falls.
pub trait Shelf {
    ghost content: { Self → List ℕ → Option (List ℕ) };

    ghost faults: { Self → ℕ };

    /// The whole bytes of the file of that name, at most `limit` of them. A read changes no bytes.
    /// `Failed` comes only with a counted fault, `TooLong` for a file of more than `limit` bytes.
    fn read(&mut self, alloc: Global, name: &str, limit: u64) -> Result<List<u8>, ReadRefusal>
        ensures whole { IfOk result (λ bytes.
            IfSome (content self.old name.now) (λ stored. bytes ≡ stored)) }
        ensures within { IfOk result (λ bytes. length bytes ≤ limit) }
        ensures too_long { IfTooLong result (λ named. (named ≡ limit)
            × IfSome (content self.old name.now) (λ stored. limit < length stored)) }

        ensures failed { OnReadFailed result (CountsFault (faults self.old) (faults self.new)) }
        ensures quiet { UnlessReadFailed result (faults self.new ≡ faults self.old) }
        ensures never_falls { faults self.old ≤ faults self.new }

        ensures keeps { (any : List ℕ) → content self.new any ≡ content self.old any };
}
