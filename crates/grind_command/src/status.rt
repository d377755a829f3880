//! How a run ends.
ghost use Rattle.std.specs.Prelude.{◌≡◌};
ghost use Rattle.std.specs.Process.{exit_status};
ghost use Rattle.grind_command.specs.Statuses.{number_of};

use std::process::ExitCode;

/// How a run ends. The numbers are those of the order here, from 0.
#[derive(Clone, Copy, Debug, PartialEq, Eq)]
pub enum Status {
    /// Every goal is closed.
    AllClosed,
    /// Some goal is open.
    SomeOpen,
    /// The file is no theory.
    TheoryRefused,
    /// The words are not those of a command.
    WordsRefused,
    /// The file could not be read.
    ReadFault,
    /// The output could not be written.
    WriteFault,
    /// Out of memory.
    Memory,
    /// The report is malformed.
    ReportMalformed,
    /// A file is longer than its limit.
    TooLong,
}

impl Status {
    /// The status of the process, from 0 to 8.
    pub fn number(self) -> u8
        ensures { result ≡ number_of self }
    {
        self as u8
    }
}

/// The status of the process.
pub fn exit_code(status: Status) -> ExitCode
    ensures { exit_status result ≡ number_of status }
{
    ExitCode::from(status.number())
}
