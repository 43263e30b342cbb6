//! Why a listener ends early.

use pitch_fields::OutOfMemory;
use stream_print::{PrintError, PutFailed, TaskError};

/// Why a listener ends early.
#[derive(Clone, Copy, PartialEq, Eq)]
pub enum ListenError {
    /// The net failed, and its count of faults rose.
    Net,
    /// The sink failed, and its count of faults rose.
    Write,
    /// Memory ran out.
    OutOfMemory,
}

impl From<PutFailed> for ListenError {
    ghost use Rattle.std.specs.Prelude.{◌≡◌};
    ghost use Rattle.live_listen.specs.declared.error.ListenError.TheVariants as errors;

    ghost from_gives = { λ _ error. error ≡ errors.Write };

    fn from(_: PutFailed) -> ListenError {
        ListenError::Write
    }
}

impl From<OutOfMemory> for ListenError {
    ghost use Rattle.std.specs.Prelude.{◌≡◌};
    ghost use Rattle.live_listen.specs.declared.error.ListenError.TheVariants as errors;

    ghost from_gives = { λ _ error. error ≡ errors.OutOfMemory };

    fn from(_: OutOfMemory) -> ListenError {
        ListenError::OutOfMemory
    }
}

impl From<PrintError> for ListenError {
    ghost use Rattle.std.specs.Prelude.{◌≡◌};
    ghost use Rattle.live_listen.specs.layers.Failures.{unprinted};

    ghost from_gives = { λ printing error. error ≡ unprinted printing };

    fn from(error: PrintError) -> ListenError {
        match error {
            PrintError::Write => ListenError::Write,
            PrintError::OutOfMemory => ListenError::OutOfMemory,
        }
    }
}

impl From<TaskError> for ListenError {
    ghost use Rattle.std.specs.Prelude.{◌≡◌};
    ghost use Rattle.live_listen.specs.layers.Failures.{unheard};

    ghost from_gives = { λ failed error. error ≡ unheard failed };

    // No line of `follow` needs a sequence, so none is ever spent.
    fn from(error: TaskError) -> ListenError {
        match error {
            TaskError::SequencesSpent => ListenError::OutOfMemory,
            TaskError::Write => ListenError::Write,
            TaskError::OutOfMemory => ListenError::OutOfMemory,
        }
    }
}
