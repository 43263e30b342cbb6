//! Why a live client ends early.

use crate::copies::Disagreement;
use pitch_fields::OutOfMemory;
use stream_print::{PrintError, PutFailed};

/// Why a live client ends early.
#[derive(Clone, Copy, PartialEq, Eq)]
pub enum RecoverError {
    /// The net failed, and its count of faults rose.
    Net,
    /// The sink failed, and its count of faults rose.
    Write,
    /// Memory ran out.
    OutOfMemory,
    /// Two copies of a message differ, so that what was heard is honest for no venue.
    Disagree(Disagreement),
}

impl From<PutFailed> for RecoverError {
    ghost use Rattle.std.specs.Prelude.{◌≡◌};
    ghost use Rattle.live_recovery.specs.declared.error.RecoverError.TheVariants as errors;

    ghost from_gives = { λ _ error. error ≡ errors.Write };

    fn from(_: PutFailed) -> RecoverError {
        RecoverError::Write
    }
}

impl From<OutOfMemory> for RecoverError {
    ghost use Rattle.std.specs.Prelude.{◌≡◌};
    ghost use Rattle.live_recovery.specs.declared.error.RecoverError.TheVariants as errors;

    ghost from_gives = { λ _ error. error ≡ errors.OutOfMemory };

    fn from(_: OutOfMemory) -> RecoverError {
        RecoverError::OutOfMemory
    }
}

impl From<PrintError> for RecoverError {
    ghost use Rattle.std.specs.Prelude.{◌≡◌};
    ghost use Rattle.live_recovery.specs.layers.Failures.{unheard};

    ghost from_gives = { λ printing error. error ≡ unheard printing };

    fn from(error: PrintError) -> RecoverError {
        match error {
            PrintError::Write => RecoverError::Write,
            PrintError::OutOfMemory => RecoverError::OutOfMemory,
        }
    }
}
