//! A net in memory that keeps what was sent and put.

ghost use Rattle.std.specs.Prelude.{◌≡◌};

use live_net::{PeerPut, PeerTaken, WaitEnd};
use scripted_nets::ScriptedVenue;
use std::process::Abort;
use venue_net::{InputRead, VenueNet};

/// What a venue said.
#[derive(Drop)]
pub(crate) enum Said {
    /// It waited.
    Waits,
    /// It sent a datagram on a line, or put bytes at a place.
    Says(u16, Vec<u8>),
    /// It closed the connection at a place.
    Closes(u16),
}

/// A net in memory, what was sent on its lines, and what was put at its places, both with the
/// waits.
#[derive(Drop)]
pub(crate) struct KeptNet<'a, R> {
    rt: &'a R,
    net: ScriptedVenue,
    pub(crate) sent: Vec<Said>,
    pub(crate) put: Vec<Said>,
}

fn copy<R: Abort + AllocGlobal>(rt: &R, bytes: &[u8]) -> Vec<u8> {
    Vec::from_slice(rt.alloc(), bytes).expect(rt, "memory")
}

impl<'a, R: Abort + AllocGlobal> KeptNet<'a, R> {
    /// Nothing was said yet.
    pub(crate) fn make(rt: &'a R, net: ScriptedVenue) -> KeptNet<'a, R>
        ensures { result.net ≡ net }
    {
        KeptNet {
            rt,
            net,
            sent: Vec::new(rt.alloc()),
            put: Vec::new(rt.alloc()),
        }
    }
}

impl<'a, R: Abort + AllocGlobal> VenueNet for KeptNet<'a, R> {
    ghost calls = { λ kept. kept.net.calls };

    ghost faults = { λ kept. kept.net.failing.faults };

    fn wait(&mut self, more: bool) -> WaitEnd {
        self.sent.push(Said::Waits).expect(self.rt, "memory");
        self.put.push(Said::Waits).expect(self.rt, "memory");
        self.net.wait(more)
    }

    fn read(&mut self, into: &mut [u8]) -> InputRead {
        self.net.read(into)
    }

    fn send(&mut self, line: u16, datagram: &[u8]) {
        let said = Said::Says(line, copy(self.rt, datagram));
        self.sent.push(said).expect(self.rt, "memory");
        self.net.send(line, datagram);
    }

    fn accept(&mut self, place: u16) -> bool {
        self.net.accept(place)
    }

    fn take(&mut self, place: u16, into: &mut [u8]) -> PeerTaken {
        self.net.take(place, into)
    }

    fn put(&mut self, place: u16, piece: &[u8]) -> PeerPut {
        let answer = self.net.put(place, piece);
        if let PeerPut::Wrote(count) = answer {
            let said = Said::Says(place, copy(self.rt, &piece[..count]));
            self.put.push(said).expect(self.rt, "memory");
        }
        answer
    }

    fn close(&mut self, place: u16) {
        self.put.push(Said::Closes(place)).expect(self.rt, "memory");
        self.net.close(place);
    }
}
