//! The exit statuses of the program and their numbers.

ghost use Rattle.std.specs.Prelude.{◌≡◌};
ghost use Rattle.pitch_tool.specs.Statuses.{status_number};

/// How the program ends.
#[derive(Clone, Copy, PartialEq, Eq)]
pub enum ExitStatus {
    /// The whole text of the command was written.
    Done,
    /// The words are no form that the program has.
    Usage,
    /// Something is wrong with the input. Of a stream the lines of the whole blocks before it were
    /// written, of a text nothing was.
    BadInput,
    /// The source failed.
    ReadFault,
    /// The sink failed.
    WriteFault,
    /// Memory ran out.
    OutOfMemory,
    /// The net failed.
    NetFault,
}

impl ExitStatus {
    /// The number with which the process ends.
    pub fn number(self) -> u8
        ensures { result ≡ status_number self }
    {
        match self {
            ExitStatus::Done => 0,
            ExitStatus::Usage => 2,
            ExitStatus::BadInput => 3,
            ExitStatus::ReadFault => 4,
            ExitStatus::WriteFault => 5,
            ExitStatus::OutOfMemory => 6,
            ExitStatus::NetFault => 7,
        }
    }
}
