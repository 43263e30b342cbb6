//! Connections by their numbers.

ghost use Rattle.std.specs.Prelude.{◌≡◌, ◌≢◌, ◌↔◌, ◌<◌, length, set, true, false, IfOk};
ghost use Rattle.std.specs.Prelude.{None, replicate, take, drop, not, is_none};
ghost use Rattle.std.specs.List.{list_any};
ghost use Rattle.live_net.specs.LiveCalls.{PeerPutWithin, PeerTakenWithin};
ghost use Rattle.live_sockets.specs.layers.OpenPeers.{HasConnection, stands_after_put};
ghost use Rattle.live_sockets.specs.layers.OpenPeers.{stands_after_take};

use crate::connection::Connection;
use live_net::{PeerPut, PeerTaken};
use mio::Registry;
use mio::event::Event;
use std::alloc::{AllocError, Global};
use std::io;
use std::marker::Model;

/// Connections by their numbers, each of which stands or not. A caller sees which do.
#[derive(Drop)]
pub struct Connections {
    slots: Vec<Option<Connection>>,
    // Of each what the system said as it was refused, or ended, last.
    reasons: Vec<Option<io::Error>>,
}

impl Model for Connections {
    ghost use Rattle.std.specs.Prelude.{Bool, List, map, is_some};

    ghost Value = { List Bool };

    ghost view = { λ c. map is_some c.slots.items };
}

// Keeps what the system said of one.
fn keep(reasons: &mut [Option<io::Error>], at: u16, reason: Option<io::Error>) {
    if let Some(kept) = reasons.get_mut(usize::from(at)) {
        *kept = reason;
    }
}

// Closes a connection, where there is one, and answers what the system said of it last.
fn close(slot: &mut Option<Connection>, registry: &Registry) -> Option<io::Error>
    ensures { slot.new ≡ None }
{
    match slot.take() {
        Some(connection) => connection.end(registry),
        None => None,
    }
}

// So many from this number on, or as many as there are.
fn some_of(slots: &[Option<Connection>], from: usize, count: usize) -> &[Option<Connection>]
    ensures { result.now ≡ take count (drop from slots.now) }
{
    let rest = slots.get(from..).unwrap_or(&[]);
    rest.get(..count).unwrap_or(rest)
}

// Whether one of them does not stand.
fn lacks_one(slots: &[Option<Connection>]) -> bool
    ensures { result ≡ list_any is_none slots.now }
{
    slots.iter().any(|slot| slot.is_none())
}

#[tactic(auto, using(crate::proofs::Connecting::changes))]
impl Connections {
    /// So many, none of which stands yet.
    pub fn make(alloc: Global, count: usize) -> Result<Connections, AllocError>
        ensures { IfOk result (λ connections. connections ≡ replicate count false) }
    {
        let mut slots = Vec::with_capacity(alloc, count)?;
        let mut reasons = Vec::with_capacity(alloc, count)?;
        for at in 0..count {
            slots.push(None)?;
            reasons.push(None)?;
        }
        Ok(Connections { slots, reasons })
    }

    /// Whether one of so many, from this number on, does not stand.
    #[tactic(auto, using(crate::proofs::Connecting::some))]
    pub fn has_free(&self, from: usize, count: usize) -> bool
        ensures { result ≡ list_any not (take count (drop from self.now)) }
    {
        lacks_one(some_of(&self.slots, from, count))
    }

    /// The wait told of one.
    pub fn tell(&mut self, at: usize, event: &Event)
        ensures { self.new ≡ self.old }
    {
        if let Some(slot) = self.slots.get_mut(at) {
            if let Some(connection) = slot {
                connection.tell(event);
            }
        }
    }

    /// Has this connection stand at a number, and answers whether there is such a number.
    pub fn set(&mut self, at: u16, connection: Connection) -> bool
        ensures there { result ≡ true ↔ at < length self.old }
        ensures stands { self.new ≡ set self.old at result }
    {
        match self.slots.get_mut(usize::from(at)) {
            Some(slot) => {
                *slot = Some(connection);
                true
            }
            None => false,
        }
    }

    /// Takes the next bytes of one to the start of the slice. Where it has ended it is closed.
    pub fn take(&mut self, registry: &Registry, at: u16, into: &mut [u8]) -> PeerTaken
        requires { 0 < length into.old }
        ensures count { PeerTakenWithin result into.new }
        ensures stood { result ≢ PeerTaken.Ended → HasConnection self.old at }
        ensures stands { self.new ≡ set self.old at (stands_after_take result) }
    {
        let Some(slot) = self.slots.get_mut(usize::from(at)) else {
            return PeerTaken::Ended;
        };
        let answer = match slot {
            Some(connection) => connection.take(into),
            None => return PeerTaken::Ended,
        };
        if answer == PeerTaken::Ended {
            keep(&mut self.reasons, at, close(slot, registry));
        }
        answer
    }

    /// Puts the first bytes of a piece into one. Where it has ended it is closed.
    pub fn put(&mut self, registry: &Registry, at: u16, piece: &[u8]) -> PeerPut
        requires { 0 < length piece.now }
        ensures count { PeerPutWithin result piece.now }
        ensures stood { result ≢ PeerPut.Ended → HasConnection self.old at }
        ensures stands { self.new ≡ set self.old at (stands_after_put result) }
    {
        let Some(slot) = self.slots.get_mut(usize::from(at)) else {
            return PeerPut::Ended;
        };
        let answer = match slot {
            Some(connection) => connection.put(piece),
            None => return PeerPut::Ended,
        };
        if answer == PeerPut::Ended {
            keep(&mut self.reasons, at, close(slot, registry));
        }
        answer
    }

    /// Closes one, where it stands. The wait tells of it no more.
    pub fn close(&mut self, registry: &Registry, at: u16)
        ensures { self.new ≡ set self.old at false }
    {
        if let Some(slot) = self.slots.get_mut(usize::from(at)) {
            close(slot, registry);
        }
        keep(&mut self.reasons, at, None);
    }

    /// The system refused one, for this reason.
    pub fn refuse(&mut self, at: u16, reason: io::Error)
        ensures { self.new ≡ self.old }
    {
        keep(&mut self.reasons, at, Some(reason));
    }

    /// What the system said as one was refused, or ended, last. It says nothing of one that the
    /// other side ended in order, and of one that was closed here.
    pub fn reason_of(&self, at: u16) -> Option<&io::Error> {
        self.reasons.get(usize::from(at))?.as_ref()
    }
}
