//! A net that looks on at another.

ghost use Rattle.std.specs.Prelude.{◌≡◌, IfOk};

use crate::trouble::WatchTrouble;
use crate::watcher::Watcher;
use live_net::{PeerPut, PeerTaken, WaitEnd};
use pitch_fields::OutOfMemory;
use pitch_io::Sink;
use std::alloc::Global;
use venue_net::{InputRead, VenueNet};

/// A venue's net, and a sink to which a line is written for each whole message of a client's
/// session that asks for something, as it comes:
///
/// `unit 7 grp 3 login`, `unit 7 grp 3 request 40 count 2`, `unit 7 spin 4 login` and
/// `unit 7 spin 4 spin 1200`; clients are counted from 1 in the order in which they are let in.
///
/// All calls go on to the net, and its answers come back: whether lines can be written changes
/// none of them.
#[derive(Drop)]
pub struct WatchedVenue<N, O> {
    net: N,
    watcher: Watcher<O>,
}

impl<N: VenueNet + Drop, O: Sink + Drop> WatchedVenue<N, O> {
    /// Looks on at a net whose places are those of units with these numbers, by their indexes.
    /// Takes the memory of all places.
    pub fn make(
        alloc: Global,
        net: N,
        units: &[u8],
        out: O,
    ) -> Result<WatchedVenue<N, O>, OutOfMemory>
        ensures net { IfOk result (λ watched. watched.net ≡ net) }
    {
        Ok(WatchedVenue {
            net,
            watcher: Watcher::make(alloc, units, out)?,
        })
    }

    /// The net.
    pub fn net(&self) -> &N
        ensures { result.now ≡ self.now.net }
    {
        &self.net
    }

    /// Where the lines went.
    pub fn out(&self) -> &O
        ensures { result.now ≡ self.now.watcher.out }
    {
        self.watcher.out()
    }

    /// Why lines are missing, or None where none is.
    pub fn trouble(&self) -> Option<WatchTrouble>
        ensures { result ≡ self.now.watcher.trouble }
    {
        self.watcher.trouble()
    }
}

impl<N: VenueNet + Drop, O: Sink + Drop> VenueNet for WatchedVenue<N, O> {
    ghost calls = { λ watched. N.calls watched.net };

    ghost faults = { λ watched. N.faults watched.net };

    fn wait(&mut self, more: bool) -> WaitEnd {
        self.net.wait(more)
    }

    fn read(&mut self, into: &mut [u8]) -> InputRead {
        self.net.read(into)
    }

    fn send(&mut self, line: u16, datagram: &[u8]) {
        self.net.send(line, datagram);
    }

    fn accept(&mut self, place: u16) -> bool {
        let came = self.net.accept(place);
        if came {
            self.watcher.let_in(place);
        }
        came
    }

    fn take(&mut self, place: u16, into: &mut [u8]) -> PeerTaken {
        let taken = self.net.take(place, into);
        if let PeerTaken::Got(count) = taken {
            self.watcher.took(place, &into[..count]);
        }
        taken
    }

    fn put(&mut self, place: u16, piece: &[u8]) -> PeerPut {
        self.net.put(place, piece)
    }

    fn close(&mut self, place: u16) {
        self.net.close(place);
    }
}
