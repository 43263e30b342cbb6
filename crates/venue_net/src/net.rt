//! The trait of a venue's net.

ghost use Rattle.std.specs.Prelude.{◌≡◌, ◌<◌, ℕ, List, Option, length};
ghost use Rattle.pitch_io.specs.Causes.{HasCause};
ghost use Rattle.live_net.specs.LiveCalls.{PeerPutWithin, PeerTakenWithin, WaitEndFailed, taken_in};
ghost use Rattle.venue_net.specs.VenueCalls.{VenueCall, Accept, Close, Put, Read, Send, Take, Wait};
ghost use Rattle.venue_net.specs.VenueCalls.{AddsVenueCall, ReadFailed, ReadWithin, read_in};

use live_net::{PeerPut, PeerTaken, WaitEnd};

/// The answer of a call that reads the input.
#[derive(Clone, Copy, PartialEq, Eq)]
pub enum InputRead {
    /// So many bytes stand at the start of the slice: at least 1, at most its length.
    Got(usize),
    /// No byte is waiting now.
    Quiet,
    /// The input is at its end.
    Ended,
    /// The read failed, and the count of faults rose.
    Failed,
}

/// What a venue hears and says by: its input, lines of datagrams that it sends, and places at which
/// clients' connections stand, lines and places by their numbers from 0.
///
/// Whoever owns the net knows which door of the venue each place is of. No call but the wait waits.
/// Only a wait and a read fail: that a connection ends is its client's doing, or the system's, and
/// a datagram for which there is no room is lost as one on the wire.
pub trait VenueNet {
    /// All calls so far, the newest first, where the net lists them.
    ghost calls: { Self → Option (List VenueCall) };

    /// How often the net has failed.
    ghost faults: { Self → ℕ };

    /// Waits until anything may have changed, to the next second at most, or until there is nothing
    /// more to wait for. Where `more` is set something may have been left in the input or in a
    /// connection, and the call does not wait. A wait of many seconds answers `Second` once.
    fn wait(&mut self, more: bool) -> WaitEnd
        ensures calls { AddsVenueCall (calls self.old) (calls self.new) (Wait more result) }
        ensures cause { HasCause (faults self.old) (faults self.new) (WaitEndFailed result) }
        ensures still { ¬ WaitEndFailed result → faults self.new ≡ faults self.old };

    /// Reads the next bytes of the input to the start of the slice.
    fn read(&mut self, into: &mut [u8]) -> InputRead
        requires { 0 < length into.old }
        ensures count { ReadWithin result into.new }
        ensures calls { AddsVenueCall (calls self.old) (calls self.new)
            (Read (length into.old) (read_in result into.new) result) }
        ensures cause { HasCause (faults self.old) (faults self.new) (ReadFailed result) }
        ensures still { ¬ ReadFailed result → faults self.new ≡ faults self.old };

    /// Sends a datagram on a line. Where there is no room for it, it is lost.
    fn send(&mut self, line: u16, datagram: &[u8])
        ensures calls { AddsVenueCall (calls self.old) (calls self.new) (Send line datagram.now) }
        ensures still { faults self.new ≡ faults self.old };

    /// Lets a client's connection in that waits at the door of this place. Answers whether one
    /// stands there now. One that stood there before is closed first.
    fn accept(&mut self, place: u16) -> bool
        ensures calls { AddsVenueCall (calls self.old) (calls self.new) (Accept place result) }
        ensures still { faults self.new ≡ faults self.old };

    /// Takes the next bytes of the connection at a place to the start of the slice.
    fn take(&mut self, place: u16, into: &mut [u8]) -> PeerTaken
        requires { 0 < length into.old }
        ensures count { PeerTakenWithin result into.new }
        ensures calls { AddsVenueCall (calls self.old) (calls self.new)
            (Take place (length into.old) (taken_in result into.new) result) }
        ensures still { faults self.new ≡ faults self.old };

    /// Puts the first bytes of a piece into the connection at a place.
    fn put(&mut self, place: u16, piece: &[u8]) -> PeerPut
        requires { 0 < length piece.now }
        ensures count { PeerPutWithin result piece.now }
        ensures calls { AddsVenueCall (calls self.old) (calls self.new)
            (Put place piece.now result) }
        ensures still { faults self.new ≡ faults self.old };

    /// Closes the connection at a place, where there is one. What was put and is not sent yet may
    /// be lost.
    fn close(&mut self, place: u16)
        ensures calls { AddsVenueCall (calls self.old) (calls self.new) (Close place) }
        ensures still { faults self.new ≡ faults self.old };
}
