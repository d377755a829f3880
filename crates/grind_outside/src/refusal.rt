//! Why a shelf or a sink refuses.
use crate::memory::Memory;

/// Why a shelf gives no bytes.
#[derive(Clone, Copy, Debug, PartialEq, Eq)]
pub enum ReadRefusal {
    /// The read failed, and the shelf counted a fault.
    Failed,
    /// The file has more bytes than this limit.
    TooLong { limit: u64 },
    /// There was no memory for the bytes.
    Memory,
}

/// Why a sink takes no bytes.
#[derive(Clone, Copy, Debug, PartialEq, Eq)]
pub enum SinkRefusal {
    /// The write failed, and the sink counted a fault.
    Failed,
    /// There was no memory for the bytes.
    Memory,
}

impl From<Memory> for ReadRefusal {
    ghost use Rattle.std.specs.Prelude.{◌≡◌};
    ghost use Rattle.grind_outside.specs.declared.refusal.ReadRefusal.TheVariants.{Memory as NoMemory};

    ghost from_gives = { λ _ refusal. refusal ≡ NoMemory };

    fn from(_memory: Memory) -> ReadRefusal {
        ReadRefusal::Memory
    }
}

impl From<Memory> for SinkRefusal {
    ghost use Rattle.std.specs.Prelude.{◌≡◌};
    ghost use Rattle.grind_outside.specs.declared.refusal.SinkRefusal.TheVariants.{Memory as NoMemory};

    ghost from_gives = { λ _ refusal. refusal ≡ NoMemory };

    fn from(_memory: Memory) -> SinkRefusal {
        SinkRefusal::Memory
    }
}
