//! The calls that were made of a net. They exist only in proofs: nothing of them is kept when a
//! program runs.

ghost use Rattle.std.specs.Prelude.{◌≡◌, List, [], ◌∷◌};
ghost use Rattle.std.specs.Borrow.{ftrue};
ghost use Rattle.venue_net.specs.VenueCalls.{VenueCall};

use live_net::{PeerPut, PeerTaken, WaitEnd};
use std::marker::Model;
use venue_net::InputRead;

// The calls so far, the newest first.
#[derive(Drop)]
pub struct CallLog {
    pub ghost calls: { List VenueCall },
}

impl Model for CallLog {
    ghost also_owns = { λ _. ftrue };
}

// A call that was made, with its answer.
#[derive(Clone, Copy)]
pub(crate) enum Made<'a> {
    Wait(bool, WaitEnd),
    Read(usize, &'a [u8], InputRead),
    Send(u16, &'a [u8]),
    Accept(u16, bool),
    Take(u16, usize, &'a [u8], PeerTaken),
    Put(u16, &'a [u8], PeerPut),
    Close(u16),
}

impl CallLog {
    ghost use Rattle.harmed_venue.specs.layers.Made.{call_of};

    // No call was made yet.
    pub(crate) fn new() -> CallLog
        ensures { result.calls ≡ [] }
    {
        CallLog {}
    }

    // One call more.
    #[inline(always)]
    pub(crate) fn then(&self, _made: &Made<'_>) -> CallLog
        ensures { result.calls ≡ call_of _made.now ∷ self.now.calls }
    {
        CallLog {}
    }
}
