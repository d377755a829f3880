//! Why a directive of a case was not followed.
use grind_outside::Memory;
use grind_theory_files::ReaderRefusal;
use std::alloc::AllocError;

/// Why a directive was not followed.
#[derive(Clone, Copy)]
pub enum Unfollowed {
    /// It is no directive, or the case may not ask for that.
    Malformed,
    /// Out of memory.
    Memory,
}

impl From<Memory> for Unfollowed {
    fn from(_memory: Memory) -> Unfollowed {
        Unfollowed::Memory
    }
}

impl From<AllocError> for Unfollowed {
    fn from(_error: AllocError) -> Unfollowed {
        Unfollowed::Memory
    }
}

impl From<ReaderRefusal> for Unfollowed {
    fn from(refusal: ReaderRefusal) -> Unfollowed {
        match refusal {
            ReaderRefusal::Memory => Unfollowed::Memory,
            ReaderRefusal::Refused(_) => Unfollowed::Malformed,
        }
    }
}
