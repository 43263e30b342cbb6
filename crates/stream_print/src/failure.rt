//! What can end the printing of a stream early: the stream, a relay, a device, or memory.

use crate::putting::PutFailed;
use pcap_feed::CaptureFault;
use pitch_fields::OutOfMemory;
use relay_unit::RelayError;
use unit_packets::BlockFault;

/// What is wrong with a stream of blocks.
#[derive(Clone, Copy, PartialEq, Eq)]
pub enum StreamTrouble {
    /// A block has a fault, or the stream ends inside one.
    Faulty(BlockFault),
    /// A capture's header or a packet of it has a fault, or the capture ends inside one.
    BadCapture(CaptureFault),
    /// The stream has more bytes than are read.
    TooLong,
}

/// Why printing a stream ended before its whole text.
#[derive(Clone, Copy, PartialEq, Eq)]
pub enum StreamFailure {
    /// The stream has a fault, or is too long.
    BadInput(StreamTrouble),
    /// What a unit's relay sends has no sequences any more.
    SequencesSpent,
    /// The source failed.
    Read,
    /// The sink failed.
    Write,
    /// Memory ran out.
    OutOfMemory,
}

/// Why a task failed on a block.
#[derive(Clone, Copy, PartialEq, Eq)]
pub enum TaskError {
    /// What a unit's relay sends has no sequences any more.
    SequencesSpent,
    /// The sink failed.
    Write,
    /// Memory ran out.
    OutOfMemory,
}

/// Why text could not be printed.
#[derive(Clone, Copy, PartialEq, Eq)]
pub enum PrintError {
    /// The sink failed.
    Write,
    /// Memory ran out.
    OutOfMemory,
}

impl From<PutFailed> for PrintError {
    ghost use Rattle.std.specs.Prelude.{◌≡◌};
    ghost use Rattle.stream_print.specs.declared.failure.PrintError.TheVariants as printing;

    ghost from_gives = { λ _ error. error ≡ printing.Write };

    fn from(_: PutFailed) -> PrintError {
        PrintError::Write
    }
}

impl From<OutOfMemory> for PrintError {
    ghost use Rattle.std.specs.Prelude.{◌≡◌};
    ghost use Rattle.stream_print.specs.declared.failure.PrintError.TheVariants as printing;

    ghost from_gives = { λ _ error. error ≡ printing.OutOfMemory };

    fn from(_: OutOfMemory) -> PrintError {
        PrintError::OutOfMemory
    }
}

impl From<PutFailed> for TaskError {
    ghost use Rattle.std.specs.Prelude.{◌≡◌};
    ghost use Rattle.stream_print.specs.declared.failure.TaskError.TheVariants as task;

    ghost from_gives = { λ _ error. error ≡ task.Write };

    fn from(_: PutFailed) -> TaskError {
        TaskError::Write
    }
}

impl From<OutOfMemory> for TaskError {
    ghost use Rattle.std.specs.Prelude.{◌≡◌};
    ghost use Rattle.stream_print.specs.declared.failure.TaskError.TheVariants as task;

    ghost from_gives = { λ _ error. error ≡ task.OutOfMemory };

    fn from(_: OutOfMemory) -> TaskError {
        TaskError::OutOfMemory
    }
}

impl From<PrintError> for TaskError {
    ghost use Rattle.std.specs.Prelude.{◌≡◌};
    ghost use Rattle.stream_print.specs.layers.Failures.{untold};

    ghost from_gives = { λ printing error. error ≡ untold printing };

    fn from(error: PrintError) -> TaskError {
        match error {
            PrintError::Write => TaskError::Write,
            PrintError::OutOfMemory => TaskError::OutOfMemory,
        }
    }
}

impl From<RelayError> for TaskError {
    ghost use Rattle.std.specs.Prelude.{◌≡◌};
    ghost use Rattle.stream_print.specs.layers.Failures.{unrelayed};

    ghost from_gives = { λ relayed error. error ≡ unrelayed relayed };

    fn from(error: RelayError) -> TaskError {
        match error {
            RelayError::SequencesSpent { .. } => TaskError::SequencesSpent,
            RelayError::OutOfMemory => TaskError::OutOfMemory,
        }
    }
}

impl From<TaskError> for StreamFailure {
    ghost use Rattle.std.specs.Prelude.{◌≡◌};
    ghost use Rattle.stream_print.specs.layers.Failures.{undone};

    ghost from_gives = { λ error failure. failure ≡ undone error };

    fn from(error: TaskError) -> StreamFailure {
        match error {
            TaskError::SequencesSpent => StreamFailure::SequencesSpent,
            TaskError::Write => StreamFailure::Write,
            TaskError::OutOfMemory => StreamFailure::OutOfMemory,
        }
    }
}

impl From<PrintError> for StreamFailure {
    ghost use Rattle.std.specs.Prelude.{◌≡◌};
    ghost use Rattle.stream_print.specs.layers.Failures.{unprinted};

    ghost from_gives = { λ error failure. failure ≡ unprinted error };

    fn from(error: PrintError) -> StreamFailure {
        match error {
            PrintError::Write => StreamFailure::Write,
            PrintError::OutOfMemory => StreamFailure::OutOfMemory,
        }
    }
}

impl From<PutFailed> for StreamFailure {
    ghost use Rattle.std.specs.Prelude.{◌≡◌};
    ghost use Rattle.stream_print.specs.declared.failure.StreamFailure.TheVariants as stream;

    ghost from_gives = { λ _ failure. failure ≡ stream.Write };

    fn from(_: PutFailed) -> StreamFailure {
        StreamFailure::Write
    }
}

impl From<OutOfMemory> for StreamFailure {
    ghost use Rattle.std.specs.Prelude.{◌≡◌};
    ghost use Rattle.stream_print.specs.declared.failure.StreamFailure.TheVariants as stream;

    ghost from_gives = { λ _ failure. failure ≡ stream.OutOfMemory };

    fn from(_: OutOfMemory) -> StreamFailure {
        StreamFailure::OutOfMemory
    }
}
