//! What can be wrong with a text of commands: a fault in it, or a command that is refused.

use pitch_fields::OutOfMemory;
use pitch_text::{TextCause, TextError};
use std::error::Error;
use std::fmt;
use venue_core::VenueError;

/// Why a text of commands makes no feed.
#[derive(Clone, Copy, Debug, PartialEq, Eq)]
pub enum CommandError {
    /// The text's first fault. Lines and columns count from 1.
    Bad {
        line: u32,
        column: u32,
        cause: TextCause,
    },
    /// The first command that the venue refuses, by its line.
    Refused {
        line: u32,
        error: VenueError,
    },
    /// There was no memory.
    OutOfMemory,
}

/// The cause in words, as `refused at line 2: known-id`.
impl fmt::Display for CommandError {
    ghost use Rattle.std.specs.Prelude.{Some};
    ghost use Rattle.command_feed.specs.Causes.{command_error_text};

    ghost output = { λ error. Some (command_error_text error) };

    fn fmt<W: fmt::Write>(&self, f: &mut fmt::Formatter<W>) -> fmt::Result {
        match *self {
            CommandError::Bad {
                line,
                column,
                cause,
            } => write!(f, "bad input at line {line} column {column}: {cause}"),
            CommandError::Refused { line, error } => write!(f, "refused at line {line}: {error}"),
            CommandError::OutOfMemory => write!(f, "out of memory"),
        }
    }
}

impl Error for CommandError {}

impl From<OutOfMemory> for CommandError {
    ghost use Rattle.std.specs.Prelude.{◌≡◌};
    ghost use Rattle.command_feed.specs.declared.error.CommandError.TheVariants as errors;

    ghost from_gives = { λ _ error. error ≡ errors.OutOfMemory };

    fn from(_: OutOfMemory) -> CommandError {
        CommandError::OutOfMemory
    }
}

impl From<TextError> for CommandError {
    ghost use Rattle.std.specs.Prelude.{◌≡◌};
    ghost use Rattle.command_feed.specs.layers.Faults.{of_text};

    ghost from_gives = { λ text error. error ≡ of_text text };

    fn from(error: TextError) -> CommandError {
        match error {
            TextError::Bad {
                line,
                column,
                cause,
            } => CommandError::Bad {
                line,
                column,
                cause,
            },
            TextError::OutOfMemory => CommandError::OutOfMemory,
        }
    }
}
