//! The net over these sockets.

ghost use Rattle.std.specs.Prelude.{◌≡◌, ◌≢◌, ◌<◌, ◌*◌, None, length, true, false, replicate};
ghost use Rattle.std.specs.Prelude.{IfOk};
ghost use Rattle.pitch_io.specs.Causes.{HasCause};
ghost use Rattle.live_net.specs.LiveCalls.{PeerPutWithin, PeerTakenWithin, WaitEndFailed};
ghost use Rattle.live_sockets.specs.layers.OpenPeers.{HasConnection, Leaves};
ghost use Rattle.live_sockets.specs.layers.OpenPeers.{stands_after_put, stands_after_take};
ghost use Rattle.venue_net.specs.VenueCalls.{ReadFailed, ReadWithin};

use crate::doors::Doors;
use crate::input::{Input, VenueInput};
use crate::out_lines::OutLines;
use crate::tokens::{Told, place_token, told_by};
use crate::trouble::VenueTrouble;
use crate::waiter::{RunTime, VenueWaiter};
use line_sockets::take_low;
use live_net::{PeerPut, PeerTaken, WaitEnd};
use live_sockets::{Connection, Connections, Seconds};
use mio::Events;
use std::alloc::{AllocError, Global};
use std::io::Read;
use std::marker::Model;
use std::net::SocketAddr;
use std::os::fd::{AsRawFd, RawFd};
use std::time::Clock;
use std::{io, net};
use venue_net::{InputRead, VenueNet};

/// A venue's net over UDP and TCP sockets. It does not tell its calls.
///
/// A wait ends where the input or a client has something, a client came to a door, one has room
/// again or has ended, a signal came, or a second has passed. It is over where its time is up; what
/// waits by then is asked for first, in at most 1,024 turns.
#[derive(Drop)]
pub struct VenueSockets<R, I> {
    waiter: VenueWaiter<R>,
    input: Input<I>,
    lines: OutLines,
    doors: Doors,
    places: Connections,
    seconds: Seconds,
    trouble: Option<VenueTrouble>,
    faults: u64,
}

impl<R, I> Model for VenueSockets<R, I> {
    ghost use Rattle.live_sockets.specs.layers.OpenPeers.{OpenLive};

    ghost Value = { OpenLive };

    ghost view = { λ n. record { lines = n.lines; connected = n.places; faults = n.faults } };
}

// Whether a socket has taken this descriptor, which was free.
fn is_taken(low: &[Option<net::UdpSocket>; 3], number: RawFd) -> bool {
    low.iter()
        .flatten()
        .any(|socket| socket.as_raw_fd() == number)
}

// Whether the input is a stream that was closed.
fn is_closed_stream<I: AsRawFd>(low: &[Option<net::UdpSocket>; 3], input: &VenueInput<I>) -> bool {
    match input {
        VenueInput::Stream(stream) => is_taken(low, stream.as_raw_fd()),
        VenueInput::Plan(_) => false,
    }
}

// Hands on what a wait told.
fn tell_all<I: Read + AsRawFd + Drop>(
    events: &Events,
    input: &mut Input<I>,
    doors: &mut Doors,
    places: &mut Connections,
)
    ensures { places.new ≡ places.old }
{
    for event in events {
        match told_by(event.token()) {
            Told::Input => input.tell(),
            Told::Door(door) => doors.tell(door),
            Told::Place(place) => places.tell(place, event),
        }
    }
}

impl<R: net::Net + Clock + Drop, I: Read + AsRawFd + Drop> VenueSockets<R, I> {
    /// Opens a line to each address and a door at each address, in their order; a line without an
    /// address leads nowhere, and a door without one is never open. So many places in
    /// turn are of one door, from the first on, and no connection stands at any of them yet. The
    /// time of the run begins now. No socket takes one of the descriptors 0 to 2, and an input that
    /// is a closed stream is at its end.
    pub fn make(
        rt: R,
        alloc: Global,
        lines: &[Option<SocketAddr>],
        doors: &[Option<SocketAddr>],
        places_per_door: u16,
        input: VenueInput<I>,
        time: RunTime,
    ) -> Result<VenueSockets<R, I>, VenueTrouble>
        requires { 0 < places_per_door }
        ensures lines { IfOk result (λ net. net.lines ≡ length lines.now) }
        ensures connected { IfOk result (λ net.
            net.connected ≡ replicate (length doors.now * places_per_door) false) }
        ensures faults { IfOk result (λ net. net.faults ≡ 0) }
    {
        let low = take_low(&rt).map_err(VenueTrouble::of_wait)?;
        let is_closed = is_closed_stream(&low, &input);
        let each = usize::from(places_per_door);
        let Some(count) = doors.len().checked_mul(each) else {
            return Err(AllocError.into());
        };
        let sockets = count.saturating_add(doors.len());
        let waiter = VenueWaiter::make(rt, alloc, sockets, time).map_err(VenueTrouble::of_wait)?;
        let input = Input::make(input, waiter.registry(), is_closed).map_err(
            VenueTrouble::of_input,
        )?;
        let lines = OutLines::open(waiter.runtime(), alloc, lines)?;
        let doors = Doors::open(waiter.runtime(), alloc, waiter.registry(), doors, each)?;
        let places = Connections::make(alloc, count)?;
        let seconds = Seconds::start(waiter.runtime()).map_err(VenueTrouble::of_wait)?;
        Ok(VenueSockets {
            waiter,
            input,
            lines,
            doors,
            places,
            seconds,
            trouble: None,
            faults: 0,
        })
    }

    /// What the system said at the last fault.
    pub fn trouble(&self) -> Option<&VenueTrouble> {
        self.trouble.as_ref()
    }

    /// How many datagrams were not sent, since the system had no room for them or refused them.
    pub fn send_errors(&self) -> u64 {
        self.lines.send_errors()
    }

    /// What the system said of the last of these, and of which line.
    pub fn send_trouble(&self) -> Option<&VenueTrouble> {
        self.lines.trouble()
    }

    // Keeps what the system said, and counts a fault.
    fn fault(&mut self, trouble: VenueTrouble)
        ensures cause { HasCause self.old.faults self.new.faults (Unit {0}) }
        ensures same { self.new ≡ record self.old { faults = self.new.faults } }
    {
        self.trouble = Some(trouble);
        self.faults = self.faults.saturating_add(1);
    }

    // Waits to the next second at most, and answers why the wait ended.
    fn wake(&mut self, more: bool) -> io::Result<WaitEnd>
        ensures fails { IfOk result (λ answer. ¬ WaitEndFailed answer) }
        ensures same { self.new ≡ self.old }
    {
        if self.input.has_ended() {
            self.waiter.end_input()?;
        }
        // A place may have become free after it was asked for a client.
        let may_let_in = self.doors.turn_away(self.waiter.runtime(), &self.places);
        let has_file = self.input.tell_file();
        let left = self.seconds.left(self.waiter.runtime())?;
        if !self.waiter.wake(more || may_let_in || has_file, left)? {
            return Ok(WaitEnd::Over);
        }
        tell_all(
            self.waiter.events(),
            &mut self.input,
            &mut self.doors,
            &mut self.places,
        );
        if self.seconds.is_over(self.waiter.runtime())? {
            self.doors.try_again();
            self.input.second();
            return Ok(WaitEnd::Second);
        }
        Ok(WaitEnd::Ready)
    }
}

impl<R: net::Net + Clock + Drop, I: Read + AsRawFd + Drop> VenueNet for VenueSockets<R, I> {
    ghost calls = { λ _. None };

    ghost faults = { λ net. net.faults };

    fn wait(&mut self, more: bool) -> WaitEnd
        ensures cause { HasCause self.old.faults self.new.faults (WaitEndFailed result) }
        ensures still { ¬ WaitEndFailed result → self.new.faults ≡ self.old.faults }
        ensures same { self.new ≡ record self.old { faults = self.new.faults } }
    {
        match self.wake(more) {
            Ok(answer) => answer,
            Err(reason) => {
                self.fault(VenueTrouble::of_wait(reason));
                WaitEnd::Failed
            }
        }
    }

    fn read(&mut self, into: &mut [u8]) -> InputRead
        requires { 0 < length into.old }
        ensures count { ReadWithin result into.new }
        ensures cause { HasCause self.old.faults self.new.faults (ReadFailed result) }
        ensures still { ¬ ReadFailed result → self.new.faults ≡ self.old.faults }
        ensures same { self.new ≡ record self.old { faults = self.new.faults } }
    {
        match self.input.read(self.waiter.registry(), into) {
            Ok(answer) => answer,
            Err(reason) => {
                self.fault(VenueTrouble::of_input(reason));
                InputRead::Failed
            }
        }
    }

    fn send(&mut self, line: u16, datagram: &[u8])
        ensures still { self.new.faults ≡ self.old.faults }
        ensures same { self.new ≡ self.old }
    {
        self.lines.send(line, datagram);
    }

    #[tactic(auto, using(live_sockets::proofs::Connecting::changed_again))]
    fn accept(&mut self, place: u16) -> bool
        ensures still { self.new.faults ≡ self.old.faults }
        ensures there { result ≡ true → place < length self.old.connected }
        ensures stands { Leaves self.old self.new place result }
    {
        let waiter = &self.waiter;
        self.places.close(waiter.registry(), place);
        let Some(stream) = self.doors.accept(waiter.runtime(), place) else {
            return false;
        };
        match Connection::accepted(waiter.registry(), place_token(place), stream) {
            Ok(client) => self.places.set(place, client),
            Err(_) => false,
        }
    }

    fn take(&mut self, place: u16, into: &mut [u8]) -> PeerTaken
        requires { 0 < length into.old }
        ensures count { PeerTakenWithin result into.new }
        ensures still { self.new.faults ≡ self.old.faults }
        ensures stood { result ≢ PeerTaken.Ended → HasConnection self.old.connected place }
        ensures stands { Leaves self.old self.new place (stands_after_take result) }
    {
        self.places.take(self.waiter.registry(), place, into)
    }

    fn put(&mut self, place: u16, piece: &[u8]) -> PeerPut
        requires { 0 < length piece.now }
        ensures count { PeerPutWithin result piece.now }
        ensures still { self.new.faults ≡ self.old.faults }
        ensures stood { result ≢ PeerPut.Ended → HasConnection self.old.connected place }
        ensures stands { Leaves self.old self.new place (stands_after_put result) }
    {
        self.places.put(self.waiter.registry(), place, piece)
    }

    fn close(&mut self, place: u16)
        ensures still { self.new.faults ≡ self.old.faults }
        ensures stands { Leaves self.old self.new place false }
    {
        self.places.close(self.waiter.registry(), place);
    }
}
