//! The exit statuses of the program and their numbers.

ghost use Rattle.std.specs.Prelude.{◌≡◌};
ghost use Rattle.live_setups.specs.Statuses.{status_number};

/// How the program ends.
#[derive(Clone, Copy, PartialEq, Eq)]
pub enum ExitStatus {
    /// The run is over, and all that it writes was written.
    Done,
    /// The words ask for nothing, or a setup file can't be read.
    Usage,
    /// Something is wrong with the input of commands.
    BadInput,
    /// The input failed.
    ReadFault,
    /// Standard output, or a report, failed.
    WriteFault,
    /// Memory ran out.
    OutOfMemory,
    /// The net failed.
    NetFault,
    /// Two copies of a message differ.
    LinesDisagree,
}

impl ExitStatus {
    /// The number with which the process ends.
    pub fn number(self) -> u8
        ensures { result ≡ status_number self }
    {
        match self {
            ExitStatus::Done => 0,
            ExitStatus::Usage => 2,
            ExitStatus::BadInput => 3,
            ExitStatus::ReadFault => 4,
            ExitStatus::WriteFault => 5,
            ExitStatus::OutOfMemory => 6,
            ExitStatus::NetFault => 7,
            ExitStatus::LinesDisagree => 8,
        }
    }
}
