//! What happens next to a net in memory.

ghost use Rattle.std.specs.Prelude.{◌≡◌, ◌<◌, IfOk, length, min, take};
ghost use Rattle.live_net.specs.LineCalls.{ReceiveFailed, ReceivedWithin};
ghost use Rattle.live_net.specs.LiveCalls.{PeerTakenWithin, taken_in};
ghost use Rattle.venue_net.specs.VenueCalls.{ReadFailed, ReadWithin, read_in};
ghost use Rattle.scripted_nets.specs.layers.Scripts.{IsAnswer, after_accept, after_datagram};
ghost use Rattle.scripted_nets.specs.layers.Scripts.{after_open, after_put, after_read, after_take};
ghost use Rattle.scripted_nets.specs.layers.Scripts.{after_wait, brought, lets_in, next_datagram};
ghost use Rattle.scripted_nets.specs.layers.Scripts.{opened_at, put_at, read_at, steps_of};
ghost use Rattle.scripted_nets.specs.layers.Scripts.{taken_at, typed, wait_end_at};

use live_net::{PeerOpened, PeerPut, PeerTaken, Received, WaitEnd};
use std::alloc::{AllocError, Global};
use std::collections::VecDeque;
use std::marker::Model;
use venue_net::InputRead;

/// What happens next to a net.
#[derive(Clone, Copy)]
pub enum NetStep {
    /// A wait ends.
    Turn,
    /// A wait ends, and a second has passed.
    Second,
    /// A datagram comes on a line.
    Comes(u16, &'static [u8]),
    /// A peer refuses a connection.
    Refuses(u16),
    /// A venue's input brings bytes.
    Types(&'static [u8]),
    /// A venue's input ends.
    EndsInput,
    /// A client waits at the door of a venue's place.
    Knocks(u16),
    /// A peer, or the client at a place, brings bytes.
    Brings(u16, &'static [u8]),
    /// It ends its connection.
    Ends(u16),
    /// It has room for so many bytes.
    HasRoom(u16, usize),
}

// A script: what is first in it happens next.
#[derive(Drop)]
pub struct Script {
    steps: VecDeque<NetStep>,
}

impl Model for Script {
    ghost use Rattle.std.specs.Prelude.{List};
    ghost use Rattle.scripted_nets.specs.layers.Scripts.{Step, steps_of};

    ghost Value = { List Step };

    ghost view = { λ s. steps_of s.steps.items };
}

// Copies the first bytes to the start of the slice, as many as there is room for.
fn copy_front(bytes: &[u8], into: &mut [u8]) -> usize
    ensures count { result ≡ min (length bytes.now) (length into.old) }
    ensures came { take result into.new ≡ take result bytes.now }
    ensures size { length into.new ≡ length into.old }
{
    let count = bytes.len().min(into.len());
    into[..count].copy_from_slice(&bytes[..count]);
    count
}

impl Script {
    // A script of these steps.
    pub(crate) fn make(alloc: Global, steps: &[NetStep]) -> Result<Script, AllocError>
        ensures { IfOk result (λ script. script ≡ steps_of steps.now) }
    {
        let mut kept = VecDeque::new(alloc);
        'steps: for step in steps {
            kept.push_back(*step)?;
        }
        Ok(Script { steps: kept })
    }

    // Ends a wait.
    pub(crate) fn wait(&mut self) -> WaitEnd
        ensures answer { result ≡ wait_end_at self.old }
        ensures rest { self.new ≡ after_wait self.old }
    {
        let answer = match self.steps.front() {
            Some(NetStep::Turn) => WaitEnd::Ready,
            Some(NetStep::Second) => WaitEnd::Second,
            Some(_) => return WaitEnd::Ready,
            None => return WaitEnd::Over,
        };
        let _step = self.steps.pop_front();
        answer
    }

    // Takes the next datagram of a line, cut where it is longer than the slice.
    pub(crate) fn receive(&mut self, line: u16, into: &mut [u8]) -> Received
        ensures answer { IsAnswer (next_datagram line self.old) result into.new }
        ensures count { ReceivedWithin result into.new }
        ensures fails { ¬ ReceiveFailed result }
        ensures rest { self.new ≡ after_datagram line self.old }
        ensures size { length into.new ≡ length into.old }
    {
        match self.steps.front() {
            Some(NetStep::Comes(on, _)) if *on == line => {}
            _ => return Received::Quiet,
        }
        match self.steps.pop_front() {
            Some(NetStep::Comes(_, bytes)) => Received::Got(copy_front(bytes, into)),
            _ => Received::Quiet,
        }
    }

    // Begins a connection, unless its peer refuses.
    pub(crate) fn open(&mut self, peer: u16) -> PeerOpened
        ensures answer { result ≡ opened_at peer self.old }
        ensures rest { self.new ≡ after_open peer self.old }
    {
        match self.steps.front() {
            Some(NetStep::Refuses(by)) if *by == peer => {}
            _ => return PeerOpened::Begun,
        }
        let _step = self.steps.pop_front();
        PeerOpened::Refused
    }

    // Takes the next bytes of a connection.
    pub(crate) fn take(&mut self, at: u16, into: &mut [u8]) -> PeerTaken
        requires { 0 < length into.old }
        ensures answer { result ≡ taken_at at (length into.old) self.old }
        ensures came { taken_in result into.new
            ≡ take (length into.old) (brought at self.old) }
        ensures count { PeerTakenWithin result into.new }
        ensures rest { self.new ≡ after_take at (length into.old) self.old }
    {
        match self.steps.front() {
            Some(NetStep::Brings(by, _) | NetStep::Ends(by)) if *by == at => {}
            _ => return PeerTaken::Quiet,
        }
        match self.steps.pop_front() {
            Some(NetStep::Brings(by, bytes)) => {
                let count = copy_front(bytes, into);
                if count < bytes.len() {
                    self.steps
                        .push_front_reserved(NetStep::Brings(by, &bytes[count..]));
                }
                match count {
                    0 => PeerTaken::Quiet,
                    count => PeerTaken::Got(count),
                }
            }
            _ => PeerTaken::Ended,
        }
    }

    // Puts so many bytes into a connection.
    pub(crate) fn put(&mut self, at: u16, count: usize) -> PeerPut
        requires { 0 < count }
        ensures answer { result ≡ put_at at count self.old }
        ensures rest { self.new ≡ after_put at self.old }
    {
        let answer = match self.steps.front() {
            Some(NetStep::HasRoom(by, 0)) if *by == at => PeerPut::Full,
            Some(NetStep::HasRoom(by, room)) if *by == at => PeerPut::Wrote(count.min(*room)),
            Some(NetStep::Ends(by)) if *by == at => PeerPut::Ended,
            _ => return PeerPut::Wrote(count),
        };
        let _step = self.steps.pop_front();
        answer
    }

    // Lets a client in that waits at the door of a place.
    pub(crate) fn accept(&mut self, place: u16) -> bool
        ensures answer { result ≡ lets_in place self.old }
        ensures rest { self.new ≡ after_accept place self.old }
    {
        match self.steps.front() {
            Some(NetStep::Knocks(at)) if *at == place => {}
            _ => return false,
        }
        let _step = self.steps.pop_front();
        true
    }

    // Reads the next bytes of the input.
    pub(crate) fn read(&mut self, into: &mut [u8]) -> InputRead
        requires { 0 < length into.old }
        ensures answer { result ≡ read_at (length into.old) self.old }
        ensures came { read_in result into.new ≡ take (length into.old) (typed self.old) }
        ensures count { ReadWithin result into.new }
        ensures fails { ¬ ReadFailed result }
        ensures rest { self.new ≡ after_read (length into.old) self.old }
    {
        match self.steps.front() {
            Some(NetStep::Types(_) | NetStep::EndsInput) => {}
            _ => return InputRead::Quiet,
        }
        match self.steps.pop_front() {
            Some(NetStep::Types(bytes)) => {
                let count = copy_front(bytes, into);
                if count < bytes.len() {
                    self.steps
                        .push_front_reserved(NetStep::Types(&bytes[count..]));
                }
                match count {
                    0 => InputRead::Quiet,
                    count => InputRead::Got(count),
                }
            }
            _ => InputRead::Ended,
        }
    }
}
