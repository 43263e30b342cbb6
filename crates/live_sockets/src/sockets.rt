//! The net over these sockets.

ghost use Rattle.std.specs.Prelude.{◌≡◌, ◌≢◌, ◌<◌, None, length, false, replicate, IfOk};
ghost use Rattle.pitch_io.specs.Causes.{HasCause};
ghost use Rattle.live_net.specs.LineCalls.{ReceiveFailed, ReceivedWithin};
ghost use Rattle.live_net.specs.LiveCalls.{PeerPutWithin, PeerTakenWithin, WaitEndFailed};
ghost use Rattle.live_sockets.specs.layers.OpenPeers.{HasConnection, Leaves, is_begun};
ghost use Rattle.live_sockets.specs.layers.OpenPeers.{stands_after_put, stands_after_take};

use crate::connection::Connection;
use crate::connections::Connections;
use crate::seconds::Seconds;
use crate::tokens::{peer_token, peer_told};
use line_sockets::{Lines, Port, Trouble, Waiter, take_low};
use live_net::{LiveNet, PeerOpened, PeerPut, PeerTaken, Received, WaitEnd};
use mio::Events;
use std::alloc::Global;
use std::io::Read;
use std::marker::Model;
use std::net::{IpAddr, SocketAddr};
use std::os::fd::AsRawFd;
use std::time::Clock;
use std::{io, net};

/// A net over UDP sockets and TCP connections. It does not tell its calls.
///
/// A wait ends where a datagram or bytes came, a connection stands or has ended, a socket has room
/// again, a signal came, or a second has passed. It is over where the input is at its end or so
/// many seconds have passed; what waits by then is asked for first, in at most 1,024 turns. What
/// the input says is passed over. A file never ends a run, nor does a closed input.
#[derive(Drop)]
pub struct LiveSockets<R, I> {
    waiter: Waiter<R, I>,
    lines: Lines,
    // The peers' addresses, and their connections.
    addrs: Vec<SocketAddr>,
    peers: Connections,
    seconds: Seconds,
    trouble: Option<Trouble>,
    faults: u64,
}

impl<R, I> Model for LiveSockets<R, I> {
    ghost use Rattle.live_sockets.specs.layers.OpenPeers.{OpenLive};

    ghost Value = { OpenLive };

    ghost view = { λ n. record { lines = n.lines; connected = n.peers; faults = n.faults } };
}

// Hands on what a wait told of peers.
fn tell_all(events: &Events, peers: &mut Connections)
    ensures { peers.new ≡ peers.old }
{
    for event in events {
        if let Some(peer) = peer_told(event.token()) {
            peers.tell(peer, event);
        }
    }
}

impl<R: net::Net + Clock + Drop, I: Read + AsRawFd + Drop> LiveSockets<R, I> {
    /// Opens a line for each port, in their order, for so many seconds from now, where they are
    /// limited. Where senders are named, a datagram of another one is as one without bytes. No
    /// connection is begun yet with any of the peers. No socket takes one of the descriptors 0 to
    /// 2.
    pub fn make(
        rt: R,
        alloc: Global,
        ports: &[Port],
        from: &[IpAddr],
        peers: &[SocketAddr],
        input: I,
        seconds: Option<u64>,
    ) -> Result<LiveSockets<R, I>, Trouble>
        ensures lines { IfOk result (λ net. net.lines ≡ length ports.now) }
        ensures connected { IfOk result (λ net.
            net.connected ≡ replicate (length peers.now) false) }
        ensures faults { IfOk result (λ net. net.faults ≡ 0) }
    {
        let _low = take_low(&rt).map_err(Trouble::of_wait)?;
        let sockets = ports.len().saturating_add(peers.len());
        let waiter = Waiter::make(rt, alloc, sockets, input, seconds).map_err(Trouble::of_wait)?;
        let lines = Lines::open(waiter.runtime(), alloc, waiter.registry(), ports, from)?;
        let addrs = peers.to_vec(alloc)?;
        let peers = Connections::make(alloc, peers.len())?;
        let seconds = Seconds::start(waiter.runtime()).map_err(Trouble::of_wait)?;
        Ok(LiveSockets {
            waiter,
            lines,
            addrs,
            peers,
            seconds,
            trouble: None,
            faults: 0,
        })
    }

    /// What the system said at the last fault.
    pub fn trouble(&self) -> Option<&Trouble> {
        self.trouble.as_ref()
    }

    /// What the system said as the connection with a peer was refused, or ended, last. It says
    /// nothing of one that the peer ended in order, and of one that was closed here.
    pub fn trouble_of(&self, peer: u16) -> Option<&io::Error> {
        self.peers.reason_of(peer)
    }

    // Keeps what the system said, and counts a fault.
    fn fault(&mut self, trouble: Trouble)
        ensures cause { HasCause self.old.faults self.new.faults (Unit {0}) }
        ensures same { self.new ≡ record self.old { faults = self.new.faults } }
    {
        self.trouble = Some(trouble);
        self.faults = self.faults.saturating_add(1);
    }

    // Waits to the next second at most, and answers why the wait ended.
    fn wake(&mut self, more: bool) -> io::Result<WaitEnd>
        ensures fails { IfOk result (λ answer. ¬ WaitEndFailed answer) }
        ensures same { self.new ≡ self.old }
    {
        let left = self.seconds.left(self.waiter.runtime())?;
        if !self.waiter.wake(more, Some(left))? {
            return Ok(WaitEnd::Over);
        }
        tell_all(self.waiter.events(), &mut self.peers);
        if self.seconds.is_over(self.waiter.runtime())? {
            return Ok(WaitEnd::Second);
        }
        Ok(WaitEnd::Ready)
    }
}

impl<R: net::Net + Clock + Drop, I: Read + AsRawFd + Drop> LiveNet for LiveSockets<R, I> {
    ghost calls = { λ _. None };

    ghost faults = { λ net. net.faults };

    fn wait(&mut self, more: bool) -> WaitEnd
        ensures cause { HasCause self.old.faults self.new.faults (WaitEndFailed result) }
        ensures still { ¬ WaitEndFailed result → self.new.faults ≡ self.old.faults }
        ensures same { self.new ≡ record self.old { faults = self.new.faults } }
    {
        match self.wake(more) {
            Ok(answer) => answer,
            Err(reason) => {
                self.fault(Trouble::of_wait(reason));
                WaitEnd::Failed
            }
        }
    }

    fn receive(&mut self, line: u16, into: &mut [u8]) -> Received
        requires { 0 < length into.old }
        ensures count { ReceivedWithin result into.new }
        ensures cause { HasCause self.old.faults self.new.faults (ReceiveFailed result) }
        ensures still { ¬ ReceiveFailed result → self.new.faults ≡ self.old.faults }
        ensures there { ¬ ReceiveFailed result → line < self.old.lines }
        ensures same { self.new ≡ record self.old { faults = self.new.faults } }
    {
        match self.lines.receive(line, into) {
            Ok(received) => received,
            Err(trouble) => {
                self.fault(trouble);
                Received::Failed
            }
        }
    }

    #[tactic(auto, using(crate::proofs::Connecting::changed_again))]
    fn open(&mut self, peer: u16) -> PeerOpened
        ensures still { self.new.faults ≡ self.old.faults }
        ensures there { result ≡ PeerOpened.Begun → peer < length self.old.connected }
        ensures stands { Leaves self.old self.new peer (is_begun result) }
    {
        let waiter = &self.waiter;
        self.peers.close(waiter.registry(), peer);
        let Some(addr) = self.addrs.get(usize::from(peer)) else {
            return PeerOpened::Refused;
        };
        let token = peer_token(peer);
        let begun = match Connection::begin(waiter.runtime(), waiter.registry(), token, *addr) {
            Ok(begun) => begun,
            Err(reason) => {
                self.peers.refuse(peer, reason);
                return PeerOpened::Refused;
            }
        };
        if !self.peers.set(peer, begun) {
            return PeerOpened::Refused;
        }
        PeerOpened::Begun
    }

    fn take(&mut self, peer: u16, into: &mut [u8]) -> PeerTaken
        requires { 0 < length into.old }
        ensures count { PeerTakenWithin result into.new }
        ensures still { self.new.faults ≡ self.old.faults }
        ensures stood { result ≢ PeerTaken.Ended → HasConnection self.old.connected peer }
        ensures stands { Leaves self.old self.new peer (stands_after_take result) }
    {
        self.peers.take(self.waiter.registry(), peer, into)
    }

    fn put(&mut self, peer: u16, piece: &[u8]) -> PeerPut
        requires { 0 < length piece.now }
        ensures count { PeerPutWithin result piece.now }
        ensures still { self.new.faults ≡ self.old.faults }
        ensures stood { result ≢ PeerPut.Ended → HasConnection self.old.connected peer }
        ensures stands { Leaves self.old self.new peer (stands_after_put result) }
    {
        self.peers.put(self.waiter.registry(), peer, piece)
    }

    fn close(&mut self, peer: u16)
        ensures still { self.new.faults ≡ self.old.faults }
        ensures stands { Leaves self.old self.new peer false }
    {
        self.peers.close(self.waiter.registry(), peer);
    }
}
