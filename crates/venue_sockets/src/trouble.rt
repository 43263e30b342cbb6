//! What the system said.

use std::alloc::AllocError;
use std::io;
use std::io::ErrorKind;

/// A part of a venue's net.
#[derive(Clone, Copy, Debug, PartialEq, Eq)]
pub enum VenuePart {
    /// The wait, or memory at the start.
    Wait,
    /// The input of commands.
    Input,
    /// The line of this number.
    Line(u16),
    /// The door of this number.
    Door(u16),
}

/// What the system said of a part.
#[derive(Debug, Drop)]
pub struct VenueTrouble {
    pub part: VenuePart,
    pub reason: io::Error,
}

impl VenueTrouble {
    /// A trouble of the wait.
    pub(crate) fn of_wait(reason: io::Error) -> VenueTrouble {
        VenueTrouble {
            part: VenuePart::Wait,
            reason,
        }
    }

    /// A trouble of the input.
    pub(crate) fn of_input(reason: io::Error) -> VenueTrouble {
        VenueTrouble {
            part: VenuePart::Input,
            reason,
        }
    }

    /// A trouble of a line.
    pub(crate) fn of_line(line: u16, reason: io::Error) -> VenueTrouble {
        VenueTrouble {
            part: VenuePart::Line(line),
            reason,
        }
    }

    /// A trouble of a door.
    pub(crate) fn of_door(door: u16, reason: io::Error) -> VenueTrouble {
        VenueTrouble {
            part: VenuePart::Door(door),
            reason,
        }
    }
}

impl From<AllocError> for VenueTrouble {
    /// Memory was refused at the start, which is told as a trouble of the wait.
    fn from(_: AllocError) -> VenueTrouble {
        VenueTrouble::of_wait(io::Error::from(ErrorKind::OutOfMemory))
    }
}
