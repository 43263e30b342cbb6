//! Why lines are missing.

use pitch_fields::OutOfMemory;
use stream_print::PutFailed;

/// Why lines are missing of what the clients asked. Those before were written whole, but for the
/// last where the sink failed.
#[derive(Clone, Copy, Debug, PartialEq, Eq)]
pub enum WatchTrouble {
    /// The sink failed, and its count of faults rose.
    Write,
    /// Memory ran out.
    OutOfMemory,
}

impl From<PutFailed> for WatchTrouble {
    ghost use Rattle.std.specs.Prelude.{◌≡◌};
    ghost use Rattle.watched_venue.specs.declared.trouble.WatchTrouble.TheVariants as trouble;

    ghost from_gives = { λ _ error. error ≡ trouble.Write };

    fn from(_: PutFailed) -> WatchTrouble {
        WatchTrouble::Write
    }
}

impl From<OutOfMemory> for WatchTrouble {
    ghost use Rattle.std.specs.Prelude.{◌≡◌};
    ghost use Rattle.watched_venue.specs.declared.trouble.WatchTrouble.TheVariants as trouble;

    ghost from_gives = { λ _ error. error ≡ trouble.OutOfMemory };

    fn from(_: OutOfMemory) -> WatchTrouble {
        WatchTrouble::OutOfMemory
    }
}
