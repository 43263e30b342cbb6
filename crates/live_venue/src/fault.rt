//! What can be wrong with the input of a venue.

use std::error::Error;
use std::fmt;
use text_lines::TextCause;
use venue_core::VenueError;

/// The first fault of the input. Lines count from 1, up to 2^64 - 1, and columns from 1.
#[derive(Clone, Copy, Debug, PartialEq, Eq)]
pub enum InputFault {
    /// A line is no command of a unit.
    Bad {
        line: u64,
        column: u32,
        cause: TextCause,
    },
    /// The unit of a line is not served.
    NoUnit(u64),
    /// Its unit refuses the command of a line.
    Refused {
        line: u64,
        error: VenueError,
    },
    /// A line that has not ended has more than 1,048,576 bytes.
    TooLong(u64),
}

/// The fault in words, as `refused at line 2: known-id`.
impl fmt::Display for InputFault {
    ghost use Rattle.std.specs.Prelude.{Some};
    ghost use Rattle.live_venue.specs.layers.Faults.{fault_text};

    ghost output = { λ fault. Some (fault_text fault) };

    fn fmt<W: fmt::Write>(&self, f: &mut fmt::Formatter<W>) -> fmt::Result {
        match *self {
            InputFault::Bad {
                line,
                column,
                cause,
            } => write!(f, "bad input at line {line} column {column}: {cause}"),
            InputFault::NoUnit(line) => write!(f, "bad input at line {line}: no such unit"),
            InputFault::Refused { line, error } => write!(f, "refused at line {line}: {error}"),
            InputFault::TooLong(line) => write!(f, "bad input at line {line}: it has no end"),
        }
    }
}

impl Error for InputFault {}
