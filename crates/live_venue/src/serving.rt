//! A live venue between two calls of its net.

ghost use Rattle.std.specs.Prelude.{◌≡◌, ◌≢◌, ◌≤◌, ◌⊎◌, ◌++◌, List, Option, Err, IfOk};
ghost use Rattle.std.specs.Prelude.{OnOk, length, true};
ghost use Rattle.pitch_io.specs.Causes.{HasCause};
ghost use Rattle.live_turns.specs.Due.{room_for_one};
ghost use Rattle.unit_commands.specs.Pieces.{piece_limit, read_through};
ghost use Rattle.venue_end.specs.declared.setup.VenueSetup.{VenueSetup};
ghost use Rattle.venue_net.specs.VenueCalls.{VenueCall};
ghost use Rattle.venue_turns.specs.Standing.{ends_by};
ghost use Rattle.venue_turns.specs.Turning.{IsSeen, Passes};
ghost use Rattle.venue_units.specs.Coming.{UnitCame};
ghost use Rattle.venue_units.specs.Units.{UnitsStand};
ghost use Rattle.live_venue.specs.Input.{piece_heard, rest_heard};
ghost use Rattle.live_venue.specs.Running.{Now, SecondPasses, ends_now, is_none, left, pumped};
ghost use Rattle.live_venue.specs.Running.{with_heard, wrote};
ghost use Rattle.live_venue.specs.Standing.{Become, GoesOn, HasHeard, IsAbout, IsIdle, Serve};
ghost use Rattle.live_venue.specs.Standing.{Steps, by_fault};

use crate::error::ServeError;
use crate::fault::InputFault;
use crate::outbox::Outbox;
use crate::queueing::{beat_all, flush_all, hear_client};
use crate::reader::Reader;
use crate::seconds::pass_second;
use crate::setup::ServeSetup;
use live_net::{PeerPut, PeerTaken, WaitEnd};
use pitch_fields::OutOfMemory;
use std::alloc::Global;
use venue_net::{InputRead, VenueNet};
use venue_turns::{Due, VenueTurns, first_piece};
use venue_units::{UNIT_PLACES, VenueUnits};

// Whether nothing waits.
fn is_none(waiting: &[u8]) -> bool
    ensures { result ≡ is_none waiting.now }
{
    match waiting {
        [] => true,
        _ => false,
    }
}

/// Whose turn it is, the units, what was read of the input, and what is to be sent.
#[derive(Drop)]
pub(crate) struct Serving {
    turns: VenueTurns,
    units: VenueUnits,
    reader: Reader,
    outbox: Outbox,
}

impl Serving {
    /// Nothing came yet.
    pub(crate) fn make(alloc: Global, setup: &ServeSetup) -> Result<Serving, OutOfMemory>
        ensures { IfOk result (λ v. (start : Option (List VenueCall))
            → GoesOn setup.now start start v) }
    {
        let units = setup.units();
        Ok(Serving {
            turns: VenueTurns::make(alloc, UNIT_PLACES * units.len() as u16)?,
            units: VenueUnits::make(alloc, units)?,
            reader: Reader::make(alloc),
            outbox: Outbox::make(alloc),
        })
    }

    /// The units.
    pub(crate) fn units(&self) -> &VenueUnits
        ensures { result.now ≡ self.now.units }
    {
        &self.units
    }

    // A piece of the input came: what it commands is to be sent. Answers its first fault.
    fn hear_piece(
        &mut self,
        alloc: Global,
        setup: &ServeSetup,
        piece: &[u8],
    ) -> Result<Option<InputFault>, OutOfMemory>
        requires { length piece.now ≤ piece_limit }
        ensures heard { IfOk result (λ fault. (now : Now)
            → Serve setup.now self.old.units self.old.outbox now
            → self.old.reader ≡ read_through now.text → IsIdle now
            → HasHeard setup.now self.new fault (with_heard setup.now
            (piece_heard setup.now now.text piece.now now.came) (now.text ++ piece.now) now)) }
        ensures turns { self.new.turns ≡ self.old.turns }
    {
        let fault = self.reader.hear(&mut self.units, piece)?;
        flush_all(alloc, setup, &mut self.units, &mut self.outbox)?;
        Ok(fault)
    }

    // The input is at its end: what its last line commands is to be sent. Answers its fault.
    fn hear_rest(
        &mut self,
        alloc: Global,
        setup: &ServeSetup,
    ) -> Result<Option<InputFault>, OutOfMemory>
        ensures heard { IfOk result (λ fault. (now : Now)
            → Serve setup.now self.old.units self.old.outbox now
            → self.old.reader ≡ read_through now.text → IsIdle now
            → HasHeard setup.now self.new fault (with_heard setup.now
            (rest_heard setup.now now.text now.came) now.text now)) }
        ensures turns { self.new.turns ≡ self.old.turns }
    {
        let fault = self.reader.hear_rest(&mut self.units)?;
        flush_all(alloc, setup, &mut self.units, &mut self.outbox)?;
        Ok(fault)
    }

    // A second has passed for all units, and their heartbeats are to be sent.
    fn pass_second(&mut self, alloc: Global, setup: &ServeSetup) -> Result<(), OutOfMemory>
        ensures passes { OnOk result (Become setup.now self.old.units self.new.units
            self.old.outbox self.new.outbox (SecondPasses setup.now)) }
        ensures turns { self.new.turns ≡ self.old.turns }
        ensures reader { self.new.reader ≡ self.old.reader }
    {
        pass_second(setup, &mut self.units);
        beat_all(alloc, setup, &self.units, &mut self.outbox)
    }

    // A client took some bytes of what waited for it. Where nothing waits any more, a Spin Server
    // is asked for its next block; without memory for that its session is cut.
    fn wrote(&mut self, place: u16, count: usize)
        ensures goes { (s : List VenueSetup) → Become s self.old.units self.new.units
            self.old.outbox self.new.outbox (λ now now'.
            (now' ≡ pumped s place (wrote place count now))
            ⊎ (now' ≡ left place (wrote place count now))) }
        ensures turns { self.new.turns ≡ self.old.turns }
        ensures reader { self.new.reader ≡ self.old.reader }
    {
        self.units.put(place, count);
        if !is_none(self.units.waiting(place)) {
            return;
        }
        match self.units.pump(place) {
            Ok(_) => {}
            Err(OutOfMemory) => self.units.cut(place),
        }
    }

    // The connection at a place has ended.
    fn end(&mut self, place: u16)
        ensures goes { (s : List VenueSetup) → Become s self.old.units self.new.units
            self.old.outbox self.new.outbox (λ now now'. now' ≡ left place now) }
        ensures turns { (call : VenueCall) → ends_by place call ≡ true
            → Passes self.old.turns self.new.turns call }
        ensures reader { self.new.reader ≡ self.old.reader }
    {
        self.units.cut(place);
        self.turns.ended(place);
    }

    // Waits. Answers whether there is more to wait for.
    fn wait<N: VenueNet>(
        &mut self,
        alloc: Global,
        more: bool,
        setup: &ServeSetup,
        net: &mut N,
    ) -> Result<bool, ServeError>
        ensures steps { (start : Option (List VenueCall))
            → IsAbout setup.now start (N.calls net.old) self.old (Due.Wait more)
            → Steps setup.now result start (N.calls net.new) self.new }
        ensures cause { HasCause (N.faults net.old) (N.faults net.new)
            (result ≡ Err ServeError.Net) }
        ensures still { result ≢ Err ServeError.Net → N.faults net.new ≡ N.faults net.old }
    {
        match net.wait(more) {
            WaitEnd::Ready => {
                self.turns.woken();
                Ok(true)
            }
            WaitEnd::Second => {
                self.pass_second(alloc, setup)?;
                self.outbox.send(net);
                self.turns.second();
                Ok(true)
            }
            WaitEnd::Over => Ok(false),
            WaitEnd::Failed => Err(ServeError::Net),
        }
    }

    // Reads the input, and sends what it commands.
    fn read<N: VenueNet>(
        &mut self,
        alloc: Global,
        setup: &ServeSetup,
        net: &mut N,
        into: &mut [u8],
    ) -> Result<bool, ServeError>
        requires room { length into.old ≡ room_for_one }
        ensures steps { (start : Option (List VenueCall))
            → IsAbout setup.now start (N.calls net.old) self.old Due.Read
            → Steps setup.now result start (N.calls net.new) self.new }
        ensures size { length into.new ≡ length into.old }
        ensures cause { HasCause (N.faults net.old) (N.faults net.new)
            (result ≡ Err ServeError.Net) }
        ensures still { result ≢ Err ServeError.Net → N.faults net.new ≡ N.faults net.old }
    {
        match net.read(into) {
            InputRead::Got(count) => {
                let fault = self.hear_piece(alloc, setup, &into[..count])?;
                self.outbox.send(net);
                self.turns.read();
                goes_on(fault)
            }
            InputRead::Quiet => {
                self.turns.input_is_quiet();
                Ok(true)
            }
            InputRead::Ended => {
                let fault = self.hear_rest(alloc, setup)?;
                self.outbox.send(net);
                self.turns.input_ended();
                goes_on(fault)
            }
            InputRead::Failed => Err(ServeError::Net),
        }
    }

    // Lets a client in at a place. Where there is no memory for its session, there is none, and its
    // connection is closed in the same turn.
    fn accept<N: VenueNet>(&mut self, place: u16, net: &mut N)
        ensures goes { (s : List VenueSetup) (start : Option (List VenueCall))
            → IsAbout s start (N.calls net.old) self.old (Due.Accept place)
            → GoesOn s start (N.calls net.new) self.new }
        ensures still { N.faults net.new ≡ N.faults net.old }
    {
        if net.accept(place) {
            let _connected = self.units.connect(place);
            self.turns.let_in(place);
        } else {
            self.turns.nobody_came(place);
        }
    }

    // Takes bytes of the client at a place, and sends what they ask of the gap line.
    fn take<N: VenueNet>(
        &mut self,
        alloc: Global,
        place: u16,
        net: &mut N,
        into: &mut [u8],
    ) -> Result<bool, ServeError>
        requires room { length into.old ≡ room_for_one }
        ensures steps { (s : List VenueSetup) (start : Option (List VenueCall))
            → IsAbout s start (N.calls net.old) self.old (Due.Take place)
            → Steps s result start (N.calls net.new) self.new }
        ensures size { length into.new ≡ length into.old }
        ensures not_net { result ≢ Err ServeError.Net }
        ensures still { N.faults net.new ≡ N.faults net.old }
    {
        match net.take(place, into) {
            PeerTaken::Got(count) => {
                let piece = &into[..count];
                hear_client(alloc, place, piece, &mut self.units, &mut self.outbox)?;
                self.outbox.send(net);
                self.turns.took(place);
                Ok(true)
            }
            PeerTaken::Quiet => {
                self.turns.place_is_quiet(place);
                Ok(true)
            }
            PeerTaken::Ended => {
                self.end(place);
                Ok(true)
            }
        }
    }

    // Puts the first bytes that wait for the client at a place.
    fn put<N: VenueNet>(&mut self, place: u16, net: &mut N)
        ensures goes { (s : List VenueSetup) (start : Option (List VenueCall))
            → IsAbout s start (N.calls net.old) self.old (Due.Put place)
            → GoesOn s start (N.calls net.new) self.new }
        ensures still { N.faults net.new ≡ N.faults net.old }
    {
        let waiting = self.units.waiting(place);
        if waiting.is_empty() {
            return;
        }
        match net.put(place, first_piece(waiting)) {
            PeerPut::Wrote(count) => {
                self.wrote(place, count);
                self.turns.wrote(place);
            }
            PeerPut::Full => self.turns.full(place),
            PeerPut::Ended => self.end(place),
        }
    }

    // Closes the connection at a place.
    fn close<N: VenueNet>(&mut self, place: u16, net: &mut N)
        ensures goes { (s : List VenueSetup) (start : Option (List VenueCall))
            → IsAbout s start (N.calls net.old) self.old (Due.Close place)
            → GoesOn s start (N.calls net.new) self.new }
        ensures still { N.faults net.new ≡ N.faults net.old }
    {
        net.close(place);
        self.end(place);
    }

    // Whether the venue's end is shut at the place whose turn it is, and how many bytes wait there.
    fn seen(&self) -> (bool, usize)
        ensures { (s : List VenueSetup) (came : List UnitCame) → UnitsStand s self.now.units came
            → IsSeen (ends_now s came) self.now.turns.place result.0 result.1 }
    {
        match self.turns.place() {
            Some(place) => {
                let waiting = self.units.waiting(place);
                (self.units.is_shut(place), waiting.len())
            }
            None => (false, 0),
        }
    }

    /// Makes the call that is due, where one is, and does what it brings. Answers false once the
    /// wait was over.
    pub(crate) fn step<N: VenueNet>(
        &mut self,
        alloc: Global,
        setup: &ServeSetup,
        net: &mut N,
        into: &mut [u8],
    ) -> Result<bool, ServeError>
        requires room { length into.old ≡ room_for_one }
        // Whatever run led here.
        ensures steps { (start : Option (List VenueCall))
            → GoesOn setup.now start (N.calls net.old) self.old
            → Steps setup.now result start (N.calls net.new) self.new }
        ensures size { length into.new ≡ length into.old }
        ensures cause { HasCause (N.faults net.old) (N.faults net.new)
            (result ≡ Err ServeError.Net) }
        ensures still { result ≢ Err ServeError.Net → N.faults net.new ≡ N.faults net.old }
    {
        let (shut, waiting) = self.seen();
        match self.turns.due(shut, waiting) {
            // The turns have moved on.
            None => Ok(true),
            Some(Due::Wait(more)) => self.wait(alloc, more, setup, net),
            Some(Due::Read) => self.read(alloc, setup, net, into),
            Some(Due::Take(place)) => self.take(alloc, place, net, into),
            Some(Due::Accept(place)) => {
                self.accept(place, net);
                Ok(true)
            }
            Some(Due::Put(place)) => {
                self.put(place, net);
                Ok(true)
            }
            Some(Due::Close(place)) => {
                self.close(place, net);
                Ok(true)
            }
        }
    }
}

// By the fault of what was read.
fn goes_on(fault: Option<InputFault>) -> Result<bool, ServeError>
    ensures { result ≡ by_fault fault }
{
    match fault {
        None => Ok(true),
        Some(fault) => Err(ServeError::Input(fault)),
    }
}
