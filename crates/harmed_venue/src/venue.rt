//! The net that harms.

ghost use Rattle.std.specs.Prelude.{◌≡◌, ◌<◌, IfOk, Some, [], true, length};
ghost use Rattle.pitch_io.specs.Causes.{HasCause};
ghost use Rattle.live_net.specs.LiveCalls.{PeerPutWithin, PeerTakenWithin, WaitEndFailed, taken_in};
ghost use Rattle.venue_net.specs.VenueCalls.{Accept, Close, Put, Read, Send, Take, Wait};
ghost use Rattle.venue_net.specs.VenueCalls.{AddsVenueCall, ReadFailed, ReadWithin, read_in};
ghost use Rattle.harmed_venue.specs.Harmed.{cuts_left, harmed, is_cut, is_put_ended};
ghost use Rattle.harmed_venue.specs.Harmed.{is_taken_ended, unless_cut};
ghost use Rattle.harmed_venue.specs.Venues.{Lists, Makes};

use crate::call_log::{CallLog, Made};
use crate::cuts::Cuts;
use crate::harm::Harm;
use crate::lines::HarmedLines;
use live_net::{PeerPut, PeerTaken, WaitEnd};
use std::alloc::{AllocError, Global};
use std::marker::Model;
use venue_net::{InputRead, VenueNet};

/// A venue's net that harms what goes by it. A caller sees how it harms, the calls that were made
/// of it, and the net below it.
#[derive(Drop)]
pub struct HarmedVenue<N: VenueNet> {
    harm: Harm,
    lines: HarmedLines,
    cuts: Cuts,
    log: CallLog,
    net: N,
}

impl<N: VenueNet> Model for HarmedVenue<N> {
    ghost use Rattle.std.specs.Prelude.{◌≡◌};
    ghost use Rattle.harmed_venue.specs.Venues.{HarmedNet};

    ghost Value = { HarmedNet N };

    ghost use Rattle.harmed_venue.specs.layers.Standing.{HarmedStands};

    ghost view = { λ v. record { harm = v.harm; calls = v.log.calls; net = v.net } };

    ghost invariant = { λ v. HarmedStands v.harm v.lines v.cuts v.log.calls (N.calls v.net) };
}

impl<N: VenueNet + Drop> HarmedVenue<N> {
    /// A net that harms what goes by it to a net that was not called yet.
    pub fn make(alloc: Global, harm: Harm, net: N) -> Result<HarmedVenue<N>, AllocError>
        requires { Lists [] (N.calls net) }
        ensures { IfOk result (λ made. made ≡ record { harm = harm; calls = []; net = net }) }
    {
        let lines = HarmedLines::make(alloc, &harm)?;
        let cuts = Cuts::make(alloc, harm.cut, harm.places)?;
        Ok(HarmedVenue {
            harm,
            lines,
            cuts,
            log: CallLog::new(),
            net,
        })
    }

    /// The net below.
    pub fn net(&self) -> &N
        ensures net { result.now ≡ self.now.net }
        ensures calls { Lists (harmed self.now.harm self.now.calls) (N.calls self.now.net) }
    {
        &self.net
    }
}

// The bytes that were read.
fn read_bytes<'a>(answer: InputRead, into: &'a [u8]) -> &'a [u8]
    requires { ReadWithin answer into.now }
    ensures { result.now ≡ read_in answer into.now }
{
    match answer {
        InputRead::Got(count) => &into[..count],
        _ => &[],
    }
}

// The bytes that were taken.
fn taken_bytes<'a>(answer: PeerTaken, into: &'a [u8]) -> &'a [u8]
    requires { PeerTakenWithin answer into.now }
    ensures { result.now ≡ taken_in answer into.now }
{
    match answer {
        PeerTaken::Got(count) => &into[..count],
        _ => &[],
    }
}

fn is_taken_ended(answer: PeerTaken) -> bool
    ensures { result ≡ is_taken_ended answer }
{
    match answer {
        PeerTaken::Ended => true,
        PeerTaken::Got(_) => false,
        PeerTaken::Quiet => false,
    }
}

fn is_put_ended(answer: PeerPut) -> bool
    ensures { result ≡ is_put_ended answer }
{
    match answer {
        PeerPut::Ended => true,
        PeerPut::Wrote(_) => false,
        PeerPut::Full => false,
    }
}

// Takes bytes of a connection, unless it was cut: then that is told, and it is closed.
fn take_unless<N: VenueNet>(cut: bool, place: u16, into: &mut [u8], net: &mut N) -> PeerTaken
    requires { 0 < length into.old }
    ensures count { PeerTakenWithin result into.new }
    ensures makes { Makes (N.calls net.old) (N.calls net.new) (unless_cut cut place
        (Take place (length into.old) (taken_in result into.new) result)) }
    ensures ended { cut ≡ true → result ≡ PeerTaken.Ended }
    ensures still { N.faults net.new ≡ N.faults net.old }
{
    if cut {
        net.close(place);
        return PeerTaken::Ended;
    }
    net.take(place, into)
}

// Puts a piece into a connection, unless it was cut.
fn put_unless<N: VenueNet>(cut: bool, place: u16, piece: &[u8], net: &mut N) -> PeerPut
    requires { 0 < length piece.now }
    ensures count { PeerPutWithin result piece.now }
    ensures makes { Makes (N.calls net.old) (N.calls net.new)
        (unless_cut cut place (Put place piece.now result)) }
    ensures ended { cut ≡ true → result ≡ PeerPut.Ended }
    ensures still { N.faults net.new ≡ N.faults net.old }
{
    if cut {
        net.close(place);
        return PeerPut::Ended;
    }
    net.put(place, piece)
}

impl<N: VenueNet> VenueNet for HarmedVenue<N> {
    ghost calls = { λ v. Some v.calls };

    ghost faults = { λ v. N.faults v.net };

    fn wait(&mut self, more: bool) -> WaitEnd
        ensures calls { AddsVenueCall (Some self.old.calls) (Some self.new.calls)
            (Wait more result) }
        ensures cause { HasCause (N.faults self.old.net) (N.faults self.new.net)
            (WaitEndFailed result) }
        ensures still { ¬ WaitEndFailed result
            → N.faults self.new.net ≡ N.faults self.old.net }
        ensures same { self.new.harm ≡ self.old.harm }
    {
        let answer = self.net.wait(more);
        self.lines.wait_over(answer, &mut self.net);
        self.cuts.wait_over(answer);
        self.log = self.log.then(&Made::Wait(more, answer));
        answer
    }

    fn read(&mut self, into: &mut [u8]) -> InputRead
        requires { 0 < length into.old }
        ensures count { ReadWithin result into.new }
        ensures calls { AddsVenueCall (Some self.old.calls) (Some self.new.calls)
            (Read (length into.old) (read_in result into.new) result) }
        ensures cause { HasCause (N.faults self.old.net) (N.faults self.new.net)
            (ReadFailed result) }
        ensures still { ¬ ReadFailed result → N.faults self.new.net ≡ N.faults self.old.net }
        ensures same { self.new.harm ≡ self.old.harm }
    {
        let answer = self.net.read(into);
        let made = Made::Read(into.len(), read_bytes(answer, into), answer);
        self.log = self.log.then(&made);
        answer
    }

    fn send(&mut self, line: u16, datagram: &[u8])
        ensures calls { AddsVenueCall (Some self.old.calls) (Some self.new.calls)
            (Send line datagram.now) }
        ensures still { N.faults self.new.net ≡ N.faults self.old.net }
        ensures same { self.new.harm ≡ self.old.harm }
    {
        self.lines.send(line, datagram, &mut self.net);
        self.log = self.log.then(&Made::Send(line, datagram));
    }

    fn accept(&mut self, place: u16) -> bool
        ensures calls { AddsVenueCall (Some self.old.calls) (Some self.new.calls)
            (Accept place result) }
        ensures still { N.faults self.new.net ≡ N.faults self.old.net }
        ensures same { self.new.harm ≡ self.old.harm }
    {
        let came = self.net.accept(place);
        self.cuts.told(place);
        self.log = self.log.then(&Made::Accept(place, came));
        came
    }

    fn take(&mut self, place: u16, into: &mut [u8]) -> PeerTaken
        requires { 0 < length into.old }
        ensures count { PeerTakenWithin result into.new }
        ensures calls { AddsVenueCall (Some self.old.calls) (Some self.new.calls)
            (Take place (length into.old) (taken_in result into.new) result) }
        ensures still { N.faults self.new.net ≡ N.faults self.old.net }
        ensures same { self.new.harm ≡ self.old.harm }
        // A connection that was cut has ended.
        ensures cut { is_cut (cuts_left self.old.harm self.old.calls) place ≡ true
            → result ≡ PeerTaken.Ended }
    {
        let cut = self.cuts.is_cut(place);
        let answer = take_unless(cut, place, into, &mut self.net);
        self.cuts.told_if(is_taken_ended(answer), place);
        let made = Made::Take(place, into.len(), taken_bytes(answer, into), answer);
        self.log = self.log.then(&made);
        answer
    }

    fn put(&mut self, place: u16, piece: &[u8]) -> PeerPut
        requires { 0 < length piece.now }
        ensures count { PeerPutWithin result piece.now }
        ensures calls { AddsVenueCall (Some self.old.calls) (Some self.new.calls)
            (Put place piece.now result) }
        ensures still { N.faults self.new.net ≡ N.faults self.old.net }
        ensures same { self.new.harm ≡ self.old.harm }
        // A connection that was cut has ended.
        ensures cut { is_cut (cuts_left self.old.harm self.old.calls) place ≡ true
            → result ≡ PeerPut.Ended }
    {
        let cut = self.cuts.is_cut(place);
        let answer = put_unless(cut, place, piece, &mut self.net);
        self.cuts.told_if(is_put_ended(answer), place);
        self.log = self.log.then(&Made::Put(place, piece, answer));
        answer
    }

    fn close(&mut self, place: u16)
        ensures calls { AddsVenueCall (Some self.old.calls) (Some self.new.calls) (Close place) }
        ensures still { N.faults self.new.net ≡ N.faults self.old.net }
        ensures same { self.new.harm ≡ self.old.harm }
    {
        self.net.close(place);
        self.cuts.told(place);
        self.log = self.log.then(&Made::Close(place));
    }
}
