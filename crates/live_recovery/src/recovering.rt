//! A live client between two calls of its net.

ghost use Rattle.std.specs.Prelude.{◌≡◌, ◌≢◌, ℕ, List, Option, length, OnOk, OnErr, IfOk, Err};
ghost use Rattle.std.specs.Prelude.{true, IfErr};
ghost use Rattle.pitch_io.specs.Causes.{HasCause};
ghost use Rattle.stream_print.specs.Sinks.{CountsFault};
ghost use Rattle.stream_print.specs.Told.{between};
ghost use Rattle.sending_end.specs.Waiting.{ended};
ghost use Rattle.live_net.specs.LiveCalls.{LiveCall};
ghost use Rattle.live_turns.specs.Due.{room_for_one};
ghost use Rattle.live_turns.specs.Retry.{ends_by};
ghost use Rattle.live_turns.specs.Turning.{IsSeen, Passes};
ghost use Rattle.live_units.specs.Coming.{UnitCame, with_datagram};
ghost use Rattle.live_units.specs.Units.{HasGrown, LiveStands, OfLive, PassesAt};
ghost use Rattle.live_recovery.specs.Recovering.{RecoverEnds};
ghost use Rattle.live_recovery.specs.Running.{Setup, are_ended, ends_now};
ghost use Rattle.live_recovery.specs.Standing.{Agree, Devices, FailsHearing, GoesOn, Hears};
ghost use Rattle.live_recovery.specs.Standing.{IsAbout, IsAtEnd};
ghost use Rattle.live_recovery.specs.Standing.{NamesNoDevice, Steps, devices, now_of};

use crate::copies::compare;
use crate::counts::{Counts, NONE_COUNTED};
use crate::ended::have_ended;
use crate::error::RecoverError;
use crate::peer::Peer;
use crate::seconds::pass_second;
use crate::setup::RecoverSetup;
use line_copies::LineCopies;
use live_net::{LiveNet, PeerOpened, PeerPut, PeerTaken, Received, WaitEnd};
use live_turns::{Due, LiveTurns};
use live_units::LiveUnits;
use pitch_fields::OutOfMemory;
use pitch_io::Sink;
use std::alloc::Global;

/// The room for a datagram, which none of UDP passes, and for a piece of a peer's bytes.
pub const ROOM_FOR_ONE: usize = 65536;

/// Whose turn it is, what came, what is kept of it to compare, and what was counted.
#[derive(Drop)]
pub struct Recovering {
    pub turns: LiveTurns,
    pub units: LiveUnits,
    pub copies: LineCopies,
    pub counts: Counts,
}

impl Recovering {
    /// Nothing came yet.
    pub fn make(alloc: Global, setup: &RecoverSetup) -> Result<Recovering, OutOfMemory>
        ensures { IfOk result (λ r. (start : Devices) → GoesOn setup.now start start r) }
    {
        let hold = setup.hold();
        Ok(Recovering {
            turns: LiveTurns::make(alloc, setup.lines(), setup.peer_count())?,
            units: LiveUnits::make(alloc, setup.units(), setup.account(), hold)?,
            copies: LineCopies::make(alloc)?,
            counts: NONE_COUNTED,
        })
    }

    // Compares a datagram with the copies that came before it, hears it, and counts it. Where
    // copies differ, what was printed is written out, and nothing of the datagram is heard.
    fn hear<O: Sink>(
        &mut self,
        alloc: Global,
        setup: &RecoverSetup,
        datagram: &[u8],
        out: &mut O,
    ) -> Result<(), RecoverError>
        ensures hears { OnOk result (
            Hears self.old self.new (O.written out.old) (O.written out.new) datagram.now) }
        ensures agrees { OnOk result ((came : List UnitCame) → Agree self.old.copies came
            → Agree self.new.copies (with_datagram setup.now.listens datagram.now came)) }
        ensures err { IfErr result (λ error. (start : Option (List ℕ)) (came : List UnitCame)
            → LiveStands setup.now.listens start (O.written out.old) self.old.units came
            → Agree self.old.copies came → FailsHearing error setup.now.listens start
            (O.written out.new) datagram.now came) }
        ensures grows { OfLive self.old.units (O.written out.old) (λ s start came.
            HasGrown (O.written out.old) (O.written out.new)) }
        ensures not_net { result ≢ Err RecoverError.Net }
        ensures cause { CountsFault O.faults out.old out.new (result ≡ Err RecoverError.Write) }
    {
        if let Some(disagreement) = compare(&mut self.copies, alloc, setup, datagram)? {
            self.units.flush(out)?;
            return Err(RecoverError::Disagree(disagreement));
        }
        let passed = self.units.hear_datagram(datagram, out)?;
        self.counts = self.counts.after(datagram, passed)?;
        Ok(())
    }

    // Writes out what was printed, and waits. Answers whether there is more to wait for.
    fn wait<N: LiveNet, O: Sink>(
        &mut self,
        more: bool,
        net: &mut N,
        out: &mut O,
    ) -> Result<bool, RecoverError>
        // Whatever run led here, after which this is due.
        ensures steps { (s : Setup) (start : Devices)
            → IsAbout s start (devices (N.calls net.old) (O.written out.old)) self.old
            (Due.Wait more)
            → Steps s result start (devices (N.calls net.new) (O.written out.new)) self.new }
        ensures net_cause { HasCause (N.faults net.old) (N.faults net.new)
            (result ≡ Err RecoverError.Net) }
        ensures write_cause { CountsFault O.faults out.old out.new
            (result ≡ Err RecoverError.Write) }
        ensures net_still { NamesNoDevice result → N.faults net.new ≡ N.faults net.old }
    {
        let units = &mut self.units;
        units.flush(out)?;
        match net.wait(more) {
            WaitEnd::Ready => {
                self.turns.woken();
                Ok(true)
            }
            WaitEnd::Second => {
                pass_second(&mut self.units);
                self.turns.second();
                Ok(true)
            }
            WaitEnd::Over => Ok(false),
            WaitEnd::Failed => Err(RecoverError::Net),
        }
    }

    // Whether units are named, and each of them has ended.
    fn are_ended(&self, setup: &RecoverSetup) -> bool
        ensures { (start written : Option (List ℕ)) (came : List UnitCame)
            → LiveStands setup.now.listens start written self.now.units came
            → result ≡ are_ended setup.now came }
    {
        have_ended(&self.units, setup.units())
    }

    // Asks a line for a datagram.
    fn ask_line<N: LiveNet, O: Sink>(
        &mut self,
        alloc: Global,
        line: u16,
        setup: &RecoverSetup,
        net: &mut N,
        into: &mut [u8],
        out: &mut O,
    ) -> Result<bool, RecoverError>
        requires room { length into.old ≡ room_for_one }
        ensures steps { (start : Devices)
            → IsAbout setup.now start (devices (N.calls net.old) (O.written out.old)) self.old
            (Due.Receive line)
            → Steps setup.now result start (devices (N.calls net.new) (O.written out.new))
            self.new }
        ensures size { length into.new ≡ length into.old }
        ensures net_cause { HasCause (N.faults net.old) (N.faults net.new)
            (result ≡ Err RecoverError.Net) }
        ensures write_cause { CountsFault O.faults out.old out.new
            (result ≡ Err RecoverError.Write) }
        ensures net_still { NamesNoDevice result → N.faults net.new ≡ N.faults net.old }
    {
        match net.receive(line, into) {
            Received::Got(count) => {
                self.hear(alloc, setup, &into[..count], out)?;
                self.turns.received(line);
                Ok(true)
            }
            Received::Quiet => {
                self.turns.line_is_quiet(line);
                Ok(true)
            }
            Received::Failed => {
                self.units.flush(out)?;
                Err(RecoverError::Net)
            }
        }
    }

    // The connection with a peer has ended.
    fn end_peer(&mut self, at: u16, peer: Peer)
        ensures units { (now : Option (List ℕ))
            → PassesAt self.old.units self.new.units now now peer.unit (ended peer.session) }
        ensures turns { (call : LiveCall) → ends_by at call ≡ true
            → Passes self.old.turns self.new.turns call }
        ensures counts { self.new.counts ≡ self.old.counts }
        ensures copies { self.new.copies ≡ self.old.copies }
    {
        self.units.cut(peer.unit, peer.session);
        self.turns.ended(at);
    }

    // Begins a connection. Where there is no memory for a login the unit has no link, and the
    // connection is closed in its next turn.
    fn open_peer<N: LiveNet>(&mut self, at: u16, setup: &RecoverSetup, net: &mut N)
        ensures goes { (start : Devices) (written : Option (List ℕ))
            → IsAbout setup.now start (devices (N.calls net.old) written) self.old (Due.Open at)
            → GoesOn setup.now start (devices (N.calls net.new) written) self.new }
        ensures still { N.faults net.new ≡ N.faults net.old }
    {
        let Some(peer) = setup.peer(at) else {
            return;
        };
        match net.open(at) {
            PeerOpened::Begun => {
                let _made = self.units.connected(peer.unit, peer.session);
                self.turns.begun(at);
            }
            PeerOpened::Refused => self.turns.ended(at),
        }
    }

    // Takes bytes of a connection.
    fn take_peer<N: LiveNet, O: Sink>(
        &mut self,
        at: u16,
        setup: &RecoverSetup,
        net: &mut N,
        into: &mut [u8],
        out: &mut O,
    ) -> Result<bool, RecoverError>
        requires room { length into.old ≡ room_for_one }
        ensures steps { (start : Devices)
            → IsAbout setup.now start (devices (N.calls net.old) (O.written out.old)) self.old
            (Due.Take at)
            → Steps setup.now result start (devices (N.calls net.new) (O.written out.new))
            self.new }
        ensures size { length into.new ≡ length into.old }
        ensures not_net { result ≢ Err RecoverError.Net }
        ensures write_cause { CountsFault O.faults out.old out.new
            (result ≡ Err RecoverError.Write) }
        ensures still { N.faults net.new ≡ N.faults net.old }
    {
        let Some(peer) = setup.peer(at) else {
            return Ok(true);
        };
        match net.take(at, into) {
            PeerTaken::Got(count) => {
                self.units
                    .took(peer.unit, peer.session, &into[..count], out)?;
                self.turns.took(at);
                Ok(true)
            }
            PeerTaken::Quiet => {
                self.turns.peer_is_quiet(at);
                Ok(true)
            }
            PeerTaken::Ended => {
                self.end_peer(at, peer);
                Ok(true)
            }
        }
    }

    // Puts the first bytes that wait for a connection.
    fn put_peer<N: LiveNet>(&mut self, at: u16, setup: &RecoverSetup, net: &mut N)
        ensures goes { (start : Devices) (written : Option (List ℕ))
            → IsAbout setup.now start (devices (N.calls net.old) written) self.old (Due.Put at)
            → GoesOn setup.now start (devices (N.calls net.new) written) self.new }
        ensures still { N.faults net.new ≡ N.faults net.old }
    {
        let Some(peer) = setup.peer(at) else {
            return;
        };
        let waiting = self.units.waiting_bytes(peer.unit, peer.session);
        if waiting.is_empty() {
            return;
        }
        match net.put(at, &waiting[..waiting.len().min(ROOM_FOR_ONE)]) {
            PeerPut::Wrote(count) => {
                self.units.sent(peer.unit, peer.session, count);
                self.turns.wrote(at);
            }
            PeerPut::Full => self.turns.full(at),
            PeerPut::Ended => self.end_peer(at, peer),
        }
    }

    // Closes a connection to which the client's own link is shut.
    fn close_peer<N: LiveNet>(&mut self, at: u16, setup: &RecoverSetup, net: &mut N)
        ensures goes { (start : Devices) (written : Option (List ℕ))
            → IsAbout setup.now start (devices (N.calls net.old) written) self.old (Due.Close at)
            → GoesOn setup.now start (devices (N.calls net.new) written) self.new }
        ensures still { N.faults net.new ≡ N.faults net.old }
    {
        let Some(peer) = setup.peer(at) else {
            return;
        };
        net.close(at);
        self.end_peer(at, peer);
    }

    // Whether the link is open with the peer whose turn it is, and how many bytes wait for it.
    fn seen(&self, setup: &RecoverSetup) -> (bool, usize)
        ensures { (start written : Option (List ℕ)) (came : List UnitCame)
            → LiveStands setup.now.listens start written self.now.units came
            → IsSeen (ends_now setup.now (now_of came self.now.units)) self.now.turns.place
            result.0 result.1 }
    {
        let Some(at) = self.turns.peer() else {
            return (false, 0);
        };
        let Some(peer) = setup.peer(at) else {
            return (false, 0);
        };
        let has = self.units.has(peer.unit, peer.session);
        let waiting = self.units.waiting_bytes(peer.unit, peer.session);
        (has, waiting.len())
    }

    /// Makes the call that is due, where one is, and prints what came. Answers false once the wait
    /// was over, and in place of a wait where units are named, and each of them has ended.
    pub fn step<N: LiveNet, O: Sink>(
        &mut self,
        alloc: Global,
        setup: &RecoverSetup,
        net: &mut N,
        into: &mut [u8],
        out: &mut O,
    ) -> Result<bool, RecoverError>
        requires room { length into.old ≡ room_for_one }
        // Whatever run led here.
        ensures steps { (start : Devices)
            → GoesOn setup.now start (devices (N.calls net.old) (O.written out.old)) self.old
            → Steps setup.now result start (devices (N.calls net.new) (O.written out.new))
            self.new }
        ensures size { length into.new ≡ length into.old }
        ensures net_cause { HasCause (N.faults net.old) (N.faults net.new)
            (result ≡ Err RecoverError.Net) }
        ensures write_cause { CountsFault O.faults out.old out.new
            (result ≡ Err RecoverError.Write) }
        ensures net_still { NamesNoDevice result → N.faults net.new ≡ N.faults net.old }
    {
        let (has, waiting) = self.seen(setup);
        match self.turns.due(has, waiting) {
            // The turns have moved on.
            None => Ok(true),
            Some(Due::Wait(more)) => {
                if self.are_ended(setup) {
                    Ok(false)
                } else {
                    self.wait(more, net, out)
                }
            }
            Some(Due::Receive(line)) => self.ask_line(alloc, line, setup, net, into, out),
            Some(Due::Take(at)) => self.take_peer(at, setup, net, into, out),
            Some(Due::Open(at)) => {
                self.open_peer(at, setup, net);
                Ok(true)
            }
            Some(Due::Put(at)) => {
                self.put_peer(at, setup, net);
                Ok(true)
            }
            Some(Due::Close(at)) => {
                self.close_peer(at, setup, net);
                Ok(true)
            }
        }
    }

    /// Prints the books, and answers what was counted.
    pub fn finish<O: Sink>(&mut self, alloc: Global, out: &mut O) -> Result<Counts, RecoverError>
        // Whatever run led here, which is at its end.
        ensures ends { (s : Setup) (start : Devices) (calls : Option (List LiveCall))
            → IsAtEnd s start (devices calls (O.written out.old)) self.old
            → RecoverEnds s result start.calls calls (between start.written (O.written out.new)) }
        ensures not_net { result ≢ Err RecoverError.Net }
        ensures write_cause { CountsFault O.faults out.old out.new
            (result ≡ Err RecoverError.Write) }
    {
        self.units.finish(alloc, out)?;
        Ok(self.counts)
    }
}
