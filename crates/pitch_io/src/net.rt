//! The trait of a net, over which datagrams go on lines and bytes between ends.

ghost use Rattle.pitch_io.specs.declared.line.Line.{Line as LineOf};
ghost use Rattle.pitch_io.specs.declared.net.LinkEnd.{LinkEnd as EndOf};
ghost use Rattle.std.specs.Prelude.{◌≡◌, ℕ, ◌<◌, List, length, Option};
ghost use Rattle.pitch_io.specs.Causes.{HasCause};
ghost use Rattle.pitch_io.specs.Putting.{PutsWithin, PutFailed};
ghost use Rattle.pitch_io.specs.Nets.{Call, Begin, Send, Next, Put as PutCall, Take, NetTakeFailed};
ghost use Rattle.pitch_io.specs.Nets.{NetDoneFailed};
ghost use Rattle.pitch_io.specs.layers.Coming.{Coming, ListsCall, came, CameWithin};
ghost use Rattle.pitch_io.specs.layers.Coming.{AnswersWhereListed};

use crate::line::Line;
use crate::sink::Put;

/// The four ends of a unit's two connections: to its Gap Request Proxy and to its Spin Server.
#[derive(Clone, Copy, PartialEq, Eq)]
pub enum LinkEnd {
    GrpClient,
    GrpServer,
    SpinClient,
    SpinServer,
}

/// The answer of a call that takes from a line or an end.
#[derive(Clone, Copy, PartialEq, Eq)]
pub enum NetTaken {
    /// So many bytes stand at the start of the slice: at least 1, at most its length.
    Got(usize),
    /// Nothing is waiting now.
    Quiet,
    /// The other side ended it, and nothing is waiting.
    End,
    /// The net failed, and its count of faults rose.
    Failed,
}

/// The answer of a call that sends or sets up.
#[derive(Clone, Copy, PartialEq, Eq)]
pub enum NetDone {
    Done,
    /// The net failed, and its count of faults rose.
    Failed,
}

/// Three lines of datagrams and two connections, each of which has two ends.
///
/// No call waits. A net may list its calls, and then tells what is on its way on each line and to
/// each end. The count of faults rises where a call fails, and in no other.
pub trait Net {
    /// All calls so far, the newest first, where the net lists them.
    ghost calls: { Self → Option (List Call) };

    /// What is on its way on each line.
    ghost lines: { Self → LineOf → Coming (List ℕ) };

    /// What is on its way to each end.
    ghost ends: { Self → EndOf → Coming ℕ };

    /// How often the net has failed.
    ghost faults: { Self → ℕ };

    /// Sets up the lines and the connections; after a failure it may be called again.
    fn begin(&mut self) -> NetDone
        ensures calls { ListsCall (calls self.old) (calls self.new) (Begin result) }
        ensures cause { HasCause (faults self.old) (faults self.new) (NetDoneFailed result) }
        ensures still { ¬ NetDoneFailed result → faults self.new ≡ faults self.old };

    /// Sends a datagram on a line.
    fn send(&mut self, line: Line, datagram: &[u8]) -> NetDone
        ensures calls { ListsCall
            (calls self.old) (calls self.new) (Send line datagram.now result) }
        ensures cause { HasCause (faults self.old) (faults self.new) (NetDoneFailed result) }
        ensures still { ¬ NetDoneFailed result → faults self.new ≡ faults self.old };

    /// Takes the next datagram of a line to the start of the slice; one that is longer is cut.
    fn next(&mut self, line: Line, into: &mut [u8]) -> NetTaken
        requires { 0 < length into.old }
        ensures count { CameWithin result into.new }
        ensures calls { ListsCall (calls self.old)
            (calls self.new) (Next line (length into.old) (came result into.new) result) }
        ensures coming { AnswersWhereListed (calls self.new) (lines self.old line) result }
        ensures cause { HasCause (faults self.old) (faults self.new) (NetTakeFailed result) }
        ensures still { ¬ NetTakeFailed result → faults self.new ≡ faults self.old };

    /// Puts the first bytes of a piece at an end, from where they go to the other end.
    fn put(&mut self, end: LinkEnd, piece: &[u8]) -> Put
        requires { 0 < length piece.now }
        ensures count { PutsWithin result piece.now }
        ensures calls { ListsCall (calls self.old) (calls self.new) (PutCall end piece.now result) }
        ensures cause { HasCause (faults self.old) (faults self.new) (PutFailed result) }
        ensures still { ¬ PutFailed result → faults self.new ≡ faults self.old };

    /// Takes the next bytes that came to an end to the start of the slice.
    fn take(&mut self, end: LinkEnd, into: &mut [u8]) -> NetTaken
        requires { 0 < length into.old }
        ensures count { CameWithin result into.new }
        ensures calls { ListsCall (calls self.old)
            (calls self.new) (Take end (length into.old) (came result into.new) result) }
        ensures coming { AnswersWhereListed (calls self.new) (ends self.old end) result }
        ensures cause { HasCause (faults self.old) (faults self.new) (NetTakeFailed result) }
        ensures still { ¬ NetTakeFailed result → faults self.new ≡ faults self.old };
}
