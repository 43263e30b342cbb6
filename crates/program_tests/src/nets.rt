//! Nets for these tests: one that carries nothing, and one that loses what it is told to.

use pitch_io::{Line, LinkEnd, Net, NetDone, NetTaken, Put};

/// A net for commands that use none: it carries nothing and never fails.
#[derive(Drop)]
pub(crate) struct NoNet;

impl Net for NoNet {
    ghost use Rattle.std.specs.Prelude.{[], None, false};

    ghost calls = { λ net. None };

    ghost lines = { λ net line. record { items = []; ended = false } };

    ghost ends = { λ net end. record { items = []; ended = false } };

    ghost faults = { λ net. 0 };

    fn begin(&mut self) -> NetDone {
        NetDone::Done
    }

    fn send(&mut self, _line: Line, _datagram: &[u8]) -> NetDone {
        NetDone::Done
    }

    fn next(&mut self, _line: Line, _into: &mut [u8]) -> NetTaken {
        NetTaken::Quiet
    }

    fn put(&mut self, _end: LinkEnd, piece: &[u8]) -> Put {
        Put::Wrote(piece.len())
    }

    fn take(&mut self, _end: LinkEnd, _into: &mut [u8]) -> NetTaken {
        NetTaken::Quiet
    }
}

/// What is wrong with a net.
#[derive(Clone, Copy, PartialEq, Eq)]
pub(crate) enum Trouble {
    /// Nothing: it carries all.
    Nothing,
    /// What is sent on the gap line is lost.
    GapLine,
    /// What is sent on lines A and B in turns 1, 3, 5 and so on is lost, and the connection with
    /// the proxy ends in turn 20.
    Proxy,
}

/// A net over another, with some trouble.
#[derive(Drop)]
pub(crate) struct TroubledNet<N> {
    net: N,
    trouble: Trouble,
    // How many turns of a demo are over: in each the gap line is asked until nothing comes.
    turns: u32,
}

impl<N: Net> TroubledNet<N> {
    pub(crate) fn make(net: N, trouble: Trouble) -> TroubledNet<N> {
        TroubledNet {
            net,
            trouble,
            turns: 0,
        }
    }

    fn loses(&self, line: Line) -> bool {
        match self.trouble {
            Trouble::Nothing => false,
            Trouble::GapLine => line == Line::Gap,
            Trouble::Proxy => line != Line::Gap && self.turns % 2 == 0,
        }
    }

    fn has_ended(&self, end: LinkEnd) -> bool {
        let at_proxy = end == LinkEnd::GrpClient || end == LinkEnd::GrpServer;
        self.trouble == Trouble::Proxy && at_proxy && self.turns >= 19
    }
}

impl<N: Net> Net for TroubledNet<N> {
    ghost use Rattle.std.specs.Prelude.{[], None, false};

    ghost calls = { λ net. None };

    ghost lines = { λ net line. record { items = []; ended = false } };

    ghost ends = { λ net end. record { items = []; ended = false } };

    ghost faults = { λ net. N.faults net.net };

    fn begin(&mut self) -> NetDone {
        self.net.begin()
    }

    fn send(&mut self, line: Line, datagram: &[u8]) -> NetDone {
        if self.loses(line) {
            return NetDone::Done;
        }
        self.net.send(line, datagram)
    }

    fn next(&mut self, line: Line, into: &mut [u8]) -> NetTaken {
        let answer = self.net.next(line, into);
        if line == Line::Gap && answer == NetTaken::Quiet {
            self.turns = self.turns.saturating_add(1);
        }
        answer
    }

    fn put(&mut self, end: LinkEnd, piece: &[u8]) -> Put {
        self.net.put(end, piece)
    }

    fn take(&mut self, end: LinkEnd, into: &mut [u8]) -> NetTaken {
        if self.has_ended(end) {
            return NetTaken::End;
        }
        self.net.take(end, into)
    }
}
