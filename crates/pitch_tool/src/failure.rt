//! Why a command stops short of its whole text, gathered from the errors of the crates below.

use command_feed::CommandError;
use net_edge::DemoError;
use pitch_fields::OutOfMemory;
use run_audit::{AuditFault, InputError};
use schedule_replay::ReplayError;
use stream_print::{PutFailed, StreamFailure, StreamTrouble};

/// What is wrong with an input.
#[derive(Clone, Copy)]
pub enum Trouble {
    /// A stream of blocks has a fault, or more bytes than are read.
    Blocks(StreamTrouble),
    /// A text has more bytes than are read.
    LongText,
    /// A text of commands has a fault, or the venue refuses one of them.
    Commands(CommandError),
    /// A schedule's text has a fault.
    Schedule(ReplayError),
    /// What a unit's relay sends has no sequences any more.
    SequencesSpent,
    /// The input of an audit has a fault.
    Audit(AuditFault),
}

/// Why the program ends before its whole text.
#[derive(Clone, Copy)]
pub enum Failure {
    /// The words are no form that the program has.
    Usage,
    /// Something is wrong with the input.
    BadInput(Trouble),
    /// The source failed.
    Read,
    /// The sink failed.
    Write,
    /// The net failed.
    Net,
    /// Memory ran out.
    OutOfMemory,
}

impl From<OutOfMemory> for Failure {
    ghost use Rattle.std.specs.Prelude.{◌≡◌};
    ghost use Rattle.pitch_tool.specs.declared.failure.Failure.TheVariants as ending;

    ghost from_gives = { λ _ failure. failure ≡ ending.OutOfMemory };

    fn from(_: OutOfMemory) -> Failure {
        Failure::OutOfMemory
    }
}

impl From<PutFailed> for Failure {
    ghost use Rattle.std.specs.Prelude.{◌≡◌};
    ghost use Rattle.pitch_tool.specs.declared.failure.Failure.TheVariants as ending;

    ghost from_gives = { λ _ failure. failure ≡ ending.Write };

    fn from(_: PutFailed) -> Failure {
        Failure::Write
    }
}

impl From<StreamFailure> for Failure {
    ghost use Rattle.std.specs.Prelude.{◌≡◌};
    ghost use Rattle.pitch_tool.specs.layers.Failures.{of_stream};

    ghost from_gives = { λ stream failure. failure ≡ of_stream stream };

    fn from(failure: StreamFailure) -> Failure {
        match failure {
            StreamFailure::BadInput(trouble) => Failure::BadInput(Trouble::Blocks(trouble)),
            StreamFailure::SequencesSpent => Failure::BadInput(Trouble::SequencesSpent),
            StreamFailure::Read => Failure::Read,
            StreamFailure::Write => Failure::Write,
            StreamFailure::OutOfMemory => Failure::OutOfMemory,
        }
    }
}

impl From<CommandError> for Failure {
    ghost use Rattle.std.specs.Prelude.{◌≡◌};
    ghost use Rattle.pitch_tool.specs.layers.Failures.{of_commands};

    ghost from_gives = { λ error failure. failure ≡ of_commands error };

    fn from(error: CommandError) -> Failure {
        match error {
            CommandError::OutOfMemory => Failure::OutOfMemory,
            error => Failure::BadInput(Trouble::Commands(error)),
        }
    }
}

impl From<ReplayError> for Failure {
    ghost use Rattle.std.specs.Prelude.{◌≡◌};
    ghost use Rattle.pitch_tool.specs.layers.Failures.{of_schedule};

    ghost from_gives = { λ error failure. failure ≡ of_schedule error };

    fn from(error: ReplayError) -> Failure {
        match error {
            ReplayError::OutOfMemory => Failure::OutOfMemory,
            error => Failure::BadInput(Trouble::Schedule(error)),
        }
    }
}

impl From<InputError> for Failure {
    ghost use Rattle.std.specs.Prelude.{◌≡◌};
    ghost use Rattle.pitch_tool.specs.layers.Failures.{of_audit};

    ghost from_gives = { λ error failure. failure ≡ of_audit error };

    fn from(error: InputError) -> Failure {
        match error {
            InputError::Fault(fault) => Failure::BadInput(Trouble::Audit(fault)),
            InputError::OutOfMemory => Failure::OutOfMemory,
        }
    }
}

impl From<DemoError> for Failure {
    ghost use Rattle.std.specs.Prelude.{◌≡◌};
    ghost use Rattle.pitch_tool.specs.layers.Failures.{of_demo};

    ghost from_gives = { λ error failure. failure ≡ of_demo error };

    fn from(error: DemoError) -> Failure {
        match error {
            DemoError::NetFault => Failure::Net,
            DemoError::OutOfMemory => Failure::OutOfMemory,
        }
    }
}
