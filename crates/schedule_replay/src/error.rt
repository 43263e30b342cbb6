//! Why a schedule is not replayed: its text has a fault, or memory ran out.

use pitch_fields::OutOfMemory;
use pitch_text::{TextCause, TextError};
use std::error::Error;
use std::fmt;

/// Why a schedule was not replayed.
#[derive(Clone, Copy, Debug, PartialEq, Eq)]
pub enum ReplayError {
    /// The text's first fault. Lines and columns count from 1.
    Text {
        line: u32,
        column: u32,
        cause: TextCause,
    },
    /// Memory ran out.
    OutOfMemory,
}

/// The cause in words, such as `bad input at line 1 column 9: bad-word`.
impl fmt::Display for ReplayError {
    ghost use Rattle.std.specs.Prelude.{Some};
    ghost use Rattle.schedule_replay.specs.Causes.{replay_error_text};

    ghost output = { λ error. Some (replay_error_text error) };

    fn fmt<W: fmt::Write>(&self, f: &mut fmt::Formatter<W>) -> fmt::Result {
        match *self {
            ReplayError::Text {
                line,
                column,
                cause,
            } => write!(f, "bad input at line {line} column {column}: {cause}"),
            ReplayError::OutOfMemory => write!(f, "out of memory"),
        }
    }
}

impl Error for ReplayError {}

impl From<OutOfMemory> for ReplayError {
    ghost use Rattle.std.specs.Prelude.{◌≡◌};
    ghost use Rattle.schedule_replay.specs.declared.error.ReplayError.TheVariants as errors;

    ghost from_gives = { λ _ error. error ≡ errors.OutOfMemory };

    fn from(_: OutOfMemory) -> ReplayError {
        ReplayError::OutOfMemory
    }
}

impl From<TextError> for ReplayError {
    ghost use Rattle.std.specs.Prelude.{◌≡◌};
    ghost use Rattle.schedule_replay.specs.Causes.{replay_error};

    ghost from_gives = { λ text error. error ≡ replay_error text };

    fn from(error: TextError) -> ReplayError {
        match error {
            TextError::Bad {
                line,
                column,
                cause,
            } => ReplayError::Text {
                line,
                column,
                cause,
            },
            TextError::OutOfMemory => ReplayError::OutOfMemory,
        }
    }
}
