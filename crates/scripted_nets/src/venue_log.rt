//! The list that a venue's net in memory keeps of its calls, until memory is refused.

ghost use Rattle.std.specs.Prelude.{◌≡◌, [], false, None, Some};
ghost use Rattle.venue_net.specs.VenueCalls.{Put, Read, Send, Take};
ghost use Rattle.scripted_nets.specs.layers.Logs.{LeavesCalls, venue_call_of, venue_calls_of};

use live_net::{PeerPut, PeerTaken, WaitEnd};
use std::alloc::Global;
use venue_net::InputRead;

// A call as it is kept.
#[derive(Drop)]
pub enum KeptVenueCall {
    Wait(bool, WaitEnd),
    Read(usize, Vec<u8>, InputRead),
    Send(u16, Vec<u8>),
    Accept(u16, bool),
    Take(u16, usize, Vec<u8>, PeerTaken),
    Put(u16, Vec<u8>, PeerPut),
    Close(u16),
}

// The calls so far, the oldest first, until memory is refused.
#[derive(Drop)]
pub struct VenueLog {
    alloc: Global,
    calls: Vec<KeptVenueCall>,
    whole: bool,
}

impl VenueLog {
    // Nothing was called yet.
    pub(crate) fn make(alloc: Global) -> VenueLog
        ensures { venue_calls_of result ≡ Some [] }
    {
        VenueLog {
            alloc,
            calls: Vec::new(alloc),
            whole: true,
        }
    }

    // Keeps a call. Answers whether it was kept.
    pub(crate) fn keep(&mut self, call: KeptVenueCall) -> bool
        ensures { LeavesCalls
            (venue_calls_of self.old) (venue_calls_of self.new) (venue_call_of call) result }
    {
        let kept = self.calls.push(call).is_ok();
        self.whole = self.whole && kept;
        kept
    }

    // Keeps a read of the input. Answers whether it was kept.
    pub(crate) fn keep_read(&mut self, room: usize, bytes: &[u8], answer: InputRead) -> bool
        ensures { LeavesCalls (venue_calls_of self.old) (venue_calls_of self.new)
            (Read room bytes.now answer) result }
    {
        match Vec::from_slice(self.alloc, bytes) {
            Ok(copy) => self.keep(KeptVenueCall::Read(room, copy, answer)),
            Err(_) => self.refuse(),
        }
    }

    // Keeps a datagram that was sent. Answers whether it was kept.
    pub(crate) fn keep_send(&mut self, line: u16, datagram: &[u8]) -> bool
        ensures { LeavesCalls (venue_calls_of self.old) (venue_calls_of self.new)
            (Send line datagram.now) result }
    {
        match Vec::from_slice(self.alloc, datagram) {
            Ok(copy) => self.keep(KeptVenueCall::Send(line, copy)),
            Err(_) => self.refuse(),
        }
    }

    // Keeps a question for bytes. Answers whether it was kept.
    pub(crate) fn keep_take(
        &mut self,
        place: u16,
        room: usize,
        bytes: &[u8],
        answer: PeerTaken,
    ) -> bool
        ensures { LeavesCalls (venue_calls_of self.old) (venue_calls_of self.new)
            (Take place room bytes.now answer) result }
    {
        match Vec::from_slice(self.alloc, bytes) {
            Ok(copy) => self.keep(KeptVenueCall::Take(place, room, copy, answer)),
            Err(_) => self.refuse(),
        }
    }

    // Keeps a piece that was put. Answers whether it was kept.
    pub(crate) fn keep_put(&mut self, place: u16, piece: &[u8], answer: PeerPut) -> bool
        ensures { LeavesCalls (venue_calls_of self.old) (venue_calls_of self.new)
            (Put place piece.now answer) result }
    {
        match Vec::from_slice(self.alloc, piece) {
            Ok(copy) => self.keep(KeptVenueCall::Put(place, copy, answer)),
            Err(_) => self.refuse(),
        }
    }

    // Memory was refused: the call was not kept.
    fn refuse(&mut self) -> bool
        ensures lost { venue_calls_of self.new ≡ None }
        ensures none { result ≡ false }
    {
        self.whole = false;
        false
    }
}
