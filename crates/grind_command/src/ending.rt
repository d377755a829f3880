//! How a run ends, with what is said of it.
ghost use Rattle.std.specs.Prelude.{◌≡◌};
ghost use Rattle.grind_command.specs.Statuses.{status_of as ending_status};

use crate::refusal::Refusal;
use crate::status::Status;

/// How a run ends. A refused file comes with what is wrong with it.
#[derive(Clone, Copy, Debug, PartialEq, Eq)]
pub enum Ending {
    /// The report was written, and every goal is closed.
    AllClosed,
    /// The report was written, and some goal is open.
    SomeOpen,
    /// The file is no theory, for this reason.
    Refused(Refusal),
    /// The words are not those of a command.
    WordsRefused,
    /// The file could not be read.
    ReadFault,
    /// The output could not be written.
    WriteFault,
    /// Out of memory.
    Memory,
    /// The file is longer than its limit.
    TooLong,
}

/// The status of an ending.
pub fn status_of(ending: Ending) -> Status
    ensures { result ≡ ending_status ending }
{
    match ending {
        Ending::AllClosed => Status::AllClosed,
        Ending::SomeOpen => Status::SomeOpen,
        Ending::Refused(_) => Status::TheoryRefused,
        Ending::WordsRefused => Status::WordsRefused,
        Ending::ReadFault => Status::ReadFault,
        Ending::WriteFault => Status::WriteFault,
        Ending::Memory => Status::Memory,
        Ending::TooLong => Status::TooLong,
    }
}
