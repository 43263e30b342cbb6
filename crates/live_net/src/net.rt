//! The trait of a net of lines.

ghost use Rattle.std.specs.Prelude.{◌≡◌, ◌<◌, ℕ, List, Option, length};
ghost use Rattle.pitch_io.specs.Causes.{HasCause};
ghost use Rattle.live_net.specs.LineCalls.{LineCall, Wait, Receive, AddsCall, WaitFailed};
ghost use Rattle.live_net.specs.LineCalls.{ReceiveFailed, ReceivedWithin, datagram_in};

/// Why a wait ended.
#[derive(Clone, Copy, PartialEq, Eq)]
pub enum Woken {
    /// A datagram may have come.
    Ready,
    /// There is nothing more to wait for: the time is up, or whoever started the program ended it.
    Over,
    /// The wait failed, and the count of faults rose.
    Failed,
}

/// The answer of a call that takes a datagram of a line.
#[derive(Clone, Copy, PartialEq, Eq)]
pub enum Received {
    /// A datagram came. Its bytes, which may be none, stand at the start of the slice.
    Got(usize),
    /// No datagram is waiting now.
    Quiet,
    /// The line failed, and the count of faults rose.
    Failed,
}

/// Lines of datagrams, by their numbers from 0.
pub trait LineNet {
    /// All calls so far, the newest first, where the net lists them.
    ghost calls: { Self → Option (List LineCall) };

    /// How often the net has failed.
    ghost faults: { Self → ℕ };

    /// Waits until a datagram may have come, or there is nothing more to wait for. Where `more` is
    /// set a datagram may have been left on a line, and the call does not wait.
    fn wait(&mut self, more: bool) -> Woken
        ensures calls { AddsCall (calls self.old) (calls self.new) (Wait more result) }
        ensures cause { HasCause (faults self.old) (faults self.new) (WaitFailed result) }
        ensures still { ¬ WaitFailed result → faults self.new ≡ faults self.old };

    /// Takes the next datagram of a line to the start of the slice; one that is longer is cut.
    fn receive(&mut self, line: u16, into: &mut [u8]) -> Received
        requires { 0 < length into.old }
        ensures count { ReceivedWithin result into.new }
        ensures calls { AddsCall (calls self.old) (calls self.new)
            (Receive line (length into.old) (datagram_in result into.new) result) }
        ensures cause { HasCause (faults self.old) (faults self.new) (ReceiveFailed result) }
        ensures still { ¬ ReceiveFailed result → faults self.new ≡ faults self.old };
}
