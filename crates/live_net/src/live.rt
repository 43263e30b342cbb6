//! The trait of a net of lines and peers.

ghost use Rattle.std.specs.Prelude.{◌≡◌, ◌<◌, ℕ, List, Option, length};
ghost use Rattle.pitch_io.specs.Causes.{HasCause};
ghost use Rattle.live_net.specs.LineCalls.{ReceiveFailed, ReceivedWithin, datagram_in};
ghost use Rattle.live_net.specs.LiveCalls.{LiveCall, Wait, Receive, Open, Take, Put, Close};
ghost use Rattle.live_net.specs.LiveCalls.{AddsLiveCall, WaitEndFailed, PeerTakenWithin};
ghost use Rattle.live_net.specs.LiveCalls.{PeerPutWithin, taken_in};

use crate::net::Received;

/// Why a wait ended.
#[derive(Clone, Copy, PartialEq, Eq)]
pub enum WaitEnd {
    /// A datagram or bytes may have come, a connection may stand or have ended, or there may be
    /// room.
    Ready,
    /// The same, and a second at least has passed since the last such answer, or since the start.
    Second,
    /// There is nothing more to wait for: the time is up, or whoever started the program ended it.
    Over,
    /// The wait failed, and the count of faults rose.
    Failed,
}

/// The answer of a call that begins a connection.
#[derive(Clone, Copy, PartialEq, Eq)]
pub enum PeerOpened {
    /// The connection is begun. It may still be refused: then it has ended.
    Begun,
    /// There is no connection.
    Refused,
}

/// The answer of a call that takes bytes of a connection.
#[derive(Clone, Copy, PartialEq, Eq)]
pub enum PeerTaken {
    /// So many bytes stand at the start of the slice: at least 1, at most its length.
    Got(usize),
    /// No byte is waiting now, or the connection doesn't stand yet.
    Quiet,
    /// The connection was refused or has ended, or there was none. There is none now.
    Ended,
}

/// The answer of a call that puts bytes into a connection.
#[derive(Clone, Copy, PartialEq, Eq)]
pub enum PeerPut {
    /// The connection took so many of the first bytes: at least 1, at most all.
    Wrote(usize),
    /// There is no room now, or the connection doesn't stand yet.
    Full,
    /// The connection was refused or has ended, or there was none. There is none now.
    Ended,
}

/// Lines of datagrams, and peers with which connections are made, both by their numbers from 0.
///
/// A peer is a fixed address, and has one connection at most. No call but the wait waits. Only a
/// wait and a line fail: that a connection is refused or ends is its peer's doing, or the system's,
/// and is never a fault of the net.
pub trait LiveNet {
    /// All calls so far, the newest first, where the net lists them.
    ghost calls: { Self → Option (List LiveCall) };

    /// How often the net has failed.
    ghost faults: { Self → ℕ };

    /// Waits until anything may have changed, to the next second at most, or until there is nothing
    /// more to wait for. Where `more` is set something may have been left on a line or in a
    /// connection, and the call does not wait. A wait of many seconds answers `Second` once.
    fn wait(&mut self, more: bool) -> WaitEnd
        ensures calls { AddsLiveCall (calls self.old) (calls self.new) (Wait more result) }
        ensures cause { HasCause (faults self.old) (faults self.new) (WaitEndFailed result) }
        ensures still { ¬ WaitEndFailed result → faults self.new ≡ faults self.old };

    /// Takes the next datagram of a line to the start of the slice; one that is longer is cut.
    fn receive(&mut self, line: u16, into: &mut [u8]) -> Received
        requires { 0 < length into.old }
        ensures count { ReceivedWithin result into.new }
        ensures calls { AddsLiveCall (calls self.old) (calls self.new)
            (Receive line (length into.old) (datagram_in result into.new) result) }
        ensures cause { HasCause (faults self.old) (faults self.new) (ReceiveFailed result) }
        ensures still { ¬ ReceiveFailed result → faults self.new ≡ faults self.old };

    /// Begins a connection with a peer. One that there was is closed before.
    fn open(&mut self, peer: u16) -> PeerOpened
        ensures calls { AddsLiveCall (calls self.old) (calls self.new) (Open peer result) }
        ensures still { faults self.new ≡ faults self.old };

    /// Takes the next bytes of a peer's connection to the start of the slice.
    fn take(&mut self, peer: u16, into: &mut [u8]) -> PeerTaken
        requires { 0 < length into.old }
        ensures count { PeerTakenWithin result into.new }
        ensures calls { AddsLiveCall (calls self.old) (calls self.new)
            (Take peer (length into.old) (taken_in result into.new) result) }
        ensures still { faults self.new ≡ faults self.old };

    /// Puts the first bytes of a piece into a peer's connection.
    fn put(&mut self, peer: u16, piece: &[u8]) -> PeerPut
        requires { 0 < length piece.now }
        ensures count { PeerPutWithin result piece.now }
        ensures calls { AddsLiveCall (calls self.old) (calls self.new)
            (Put peer piece.now result) }
        ensures still { faults self.new ≡ faults self.old };

    /// Closes a peer's connection, where there is one. What was put and is not sent yet may be
    /// lost.
    fn close(&mut self, peer: u16)
        ensures calls { AddsLiveCall (calls self.old) (calls self.new) (Close peer) }
        ensures still { faults self.new ≡ faults self.old };
}
