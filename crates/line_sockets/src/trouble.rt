//! What the system said.

use std::alloc::AllocError;
use std::io;
use std::io::ErrorKind;

/// What the system said of a line, or, where no line is named, of the wait.
#[derive(Debug, Drop)]
pub struct Trouble {
    pub line: Option<u16>,
    pub reason: io::Error,
}

impl Trouble {
    /// A trouble of the wait.
    pub fn of_wait(reason: io::Error) -> Trouble {
        Trouble { line: None, reason }
    }

    /// A trouble of a line.
    pub fn of_line(line: u16, reason: io::Error) -> Trouble {
        Trouble {
            line: Some(line),
            reason,
        }
    }
}

impl From<AllocError> for Trouble {
    /// Memory was refused at the start, which is told as a trouble of the wait.
    fn from(_: AllocError) -> Trouble {
        Trouble::of_wait(io::Error::from(ErrorKind::OutOfMemory))
    }
}
