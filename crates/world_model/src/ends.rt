//! The two ends of a unit's world, as they are made.

ghost use Rattle.std.specs.Prelude.{◌≡◌, [], IfOk};
ghost use Rattle.sending_end.specs.Stands.{NoneWaits, SendingStands};
ghost use Rattle.venue_end.specs.Stands.{VenueStands};
ghost use Rattle.world_model.specs.Ends.{at_client, client_setup, default_limits, venue_setup};
ghost use Rattle.world_model.specs.layers.Steps.{AreLimits};

use crate::limits::Limits;
use pitch_fields::{HoldLimit, OutOfMemory};
use pitch_text::{
    DEFAULT_DAY, DEFAULT_HOLD, DEFAULT_KEPT, DEFAULT_MINUTE, DEFAULT_SECOND, Session,
};
use sending_end::SendingEnd;
use session_ends::Account;
use std::alloc::Global;
use venue_end::VenueSetup;

// The one account that both servers know, with which both links log in.
const THE_ACCOUNT: Account = Account {
    sub: *b"0001",
    user: *b"FEED",
    password: *b"PITCH     ",
};

/// The limits of a unit where none are said.
pub fn default_limits() -> Limits
    ensures limits { result ≡ default_limits }
    ensures can { AreLimits result }
{
    Limits {
        hold: DEFAULT_HOLD,
        kept: DEFAULT_KEPT,
        second: DEFAULT_SECOND,
        minute: DEFAULT_MINUTE,
        day: DEFAULT_DAY,
    }
}

/// How the venue's end of a unit is made.
pub fn venue_setup(unit: u8, limits: Limits) -> VenueSetup
    ensures { result ≡ venue_setup unit limits }
{
    VenueSetup {
        unit,
        account: THE_ACCOUNT,
        kept: limits.kept,
        second: limits.second,
        minute: limits.minute,
        day: limits.day,
    }
}

/// The client's end of a unit, to which nothing came yet. Its limits are ones that an `open` line
/// can set.
pub fn client_end(alloc: Global, unit: u8, limits: Limits) -> Result<SendingEnd, OutOfMemory>
    requires { AreLimits limits }
    ensures stands { IfOk result (λ e. SendingStands (client_setup unit limits) e []) }
    ensures waits { IfOk result (λ e. NoneWaits e) }
{
    let Some(hold) = HoldLimit::of(limits.hold) else {
        unreachable!();
    };
    SendingEnd::make(alloc, unit, &THE_ACCOUNT, hold)
}

/// A session at the client's end.
pub fn at_client(session: Session) -> sending_end::Session
    ensures { result ≡ at_client session }
{
    match session {
        Session::Grp => sending_end::Session::Proxy,
        Session::Spin => sending_end::Session::SpinServer,
    }
}
