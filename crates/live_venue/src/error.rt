//! Why a live venue ends early.

use crate::fault::InputFault;
use pitch_fields::OutOfMemory;

/// Why a live venue ends early.
#[derive(Clone, Copy, PartialEq, Eq)]
pub enum ServeError {
    /// The net failed, and its count of faults rose.
    Net,
    /// The input has this fault. All that was accepted before it was sent.
    Input(InputFault),
    /// Memory ran out.
    OutOfMemory,
}

impl From<OutOfMemory> for ServeError {
    ghost use Rattle.std.specs.Prelude.{◌≡◌};
    ghost use Rattle.live_venue.specs.declared.error.ServeError.TheVariants as errors;

    ghost from_gives = { λ _ error. error ≡ errors.OutOfMemory };

    fn from(_: OutOfMemory) -> ServeError {
        ServeError::OutOfMemory
    }
}

/// Why a live venue whose books are reported ends early.
#[derive(Clone, Copy, PartialEq, Eq)]
pub enum ReportError {
    /// The run ended so. At a fault of the input the report was written whole.
    Serve(ServeError),
    /// The report's sink failed, and its count of faults rose. By this fault of the input the run
    /// had ended, or else by a wait that was over.
    Write(Option<InputFault>),
}

impl From<OutOfMemory> for ReportError {
    ghost use Rattle.std.specs.Prelude.{◌≡◌};
    ghost use Rattle.live_venue.specs.declared.error.ReportError.TheVariants as reports;
    ghost use Rattle.live_venue.specs.declared.error.ServeError.TheVariants as errors;

    ghost from_gives = { λ _ error. error ≡ reports.Serve errors.OutOfMemory };

    fn from(_: OutOfMemory) -> ReportError {
        ReportError::Serve(ServeError::OutOfMemory)
    }
}
