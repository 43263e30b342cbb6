//! A venue's net for tests that stays in memory, answers by a script, lists its calls, and fails
//! where it is told to.

ghost use Rattle.std.specs.Prelude.{◌≡◌, ◌<◌, ◌⊎◌, [], IfOk, None, Some, length, take};
ghost use Rattle.pitch_io.specs.Causes.{HasCause};
ghost use Rattle.live_net.specs.LiveCalls.{PeerPutWithin, PeerTakenWithin, WaitEndFailed, taken_in};
ghost use Rattle.venue_net.specs.VenueCalls.{Accept, AddsVenueCall, Close, Put, Read, ReadFailed};
ghost use Rattle.venue_net.specs.VenueCalls.{ReadWithin, Send, Take, Wait, read_in};
ghost use Rattle.scripted_nets.specs.layers.Failing.{IsListed, IsNextCall};
ghost use Rattle.scripted_nets.specs.layers.Scripts.{after_accept, after_put, after_read};
ghost use Rattle.scripted_nets.specs.layers.Scripts.{after_take, after_wait, brought, lets_in};
ghost use Rattle.scripted_nets.specs.layers.Scripts.{put_at, read_at, steps_of, taken_at, typed};
ghost use Rattle.scripted_nets.specs.layers.Scripts.{wait_end_at};

use crate::came::{read, taken};
use crate::failing::FailingCalls;
use crate::script::{NetStep, Script};
use crate::venue_log::{KeptVenueCall, VenueLog};
use live_net::{PeerPut, PeerTaken, WaitEnd};
use std::alloc::{AllocError, Global};
use std::marker::Model;
use venue_net::{InputRead, VenueNet};

/// A venue's net in memory, which answers by a script.
///
/// A call that asks for what is first in the script takes it out; where something else is first,
/// the input and a client are quiet, nobody waits at a door, and all that is put is written. A wait
/// is over at the end of the script. The waits and the reads fail at the calls whose numbers,
/// counted from 1 over all calls, are listed, and where memory is refused. Where memory was refused
/// the net lists its calls no more.
#[derive(Drop)]
pub struct ScriptedVenue {
    script: Script,
    log: VenueLog,
    failing: FailingCalls,
}

impl Model for ScriptedVenue {
    ghost use Rattle.venue_net.specs.VenueCalls.{VenueCall};
    ghost use Rattle.scripted_nets.specs.layers.Logs.{venue_calls_of};
    ghost use Rattle.scripted_nets.specs.layers.Scripts.{Scripted};

    ghost Value = { Scripted VenueCall };

    ghost view = { λ n. record {
      steps = n.script;
      calls = venue_calls_of n.log;
      failing = n.failing;
    } };
}

impl ScriptedVenue {
    /// A net with this script, of which nothing was called yet.
    pub fn make(
        alloc: Global,
        steps: &[NetStep],
        failing: Vec<u64>,
    ) -> Result<ScriptedVenue, AllocError>
        ensures { IfOk result (λ net. net ≡ record {
          steps = steps_of steps.now;
          calls = Some [];
          failing = record { listed = failing.items; count = 0; faults = 0 };
        }) }
    {
        Ok(ScriptedVenue {
            script: Script::make(alloc, steps)?,
            log: VenueLog::make(alloc),
            failing: FailingCalls::make(failing),
        })
    }

    /// How many calls there were.
    pub fn called(&self) -> u64
        ensures { result ≡ self.now.failing.count }
    {
        self.failing.count()
    }
}

impl VenueNet for ScriptedVenue {
    ghost calls = { λ net. net.calls };

    ghost faults = { λ net. net.failing.faults };

    fn wait(&mut self, more: bool) -> WaitEnd
        ensures calls { AddsVenueCall self.old.calls self.new.calls (Wait more result) }
        ensures cause { HasCause self.old.failing.faults self.new.failing.faults
            (WaitEndFailed result) }
        ensures still { ¬ WaitEndFailed result → self.new.failing.faults ≡ self.old.failing.faults }
        ensures next { IsNextCall self.old.failing self.new.failing }
        ensures listed { IsListed self.new.failing → WaitEndFailed result }
        ensures others { WaitEndFailed result
            → IsListed self.new.failing ⊎ (self.new.calls ≡ None) }
        ensures answer { ¬ WaitEndFailed result → result ≡ wait_end_at self.old.steps }
        ensures rest { ¬ WaitEndFailed result → self.new.steps ≡ after_wait self.old.steps }
    {
        self.failing.count_call();
        if self.failing.is_listed() {
            self.log.keep(KeptVenueCall::Wait(more, WaitEnd::Failed));
            self.failing.fault();
            return WaitEnd::Failed;
        }
        let answer = self.script.wait();
        if self.log.keep(KeptVenueCall::Wait(more, answer)) {
            return answer;
        }
        self.failing.fault();
        WaitEnd::Failed
    }

    fn read(&mut self, into: &mut [u8]) -> InputRead
        requires { 0 < length into.old }
        ensures count { ReadWithin result into.new }
        ensures calls { AddsVenueCall self.old.calls self.new.calls
            (Read (length into.old) (read_in result into.new) result) }
        ensures cause { HasCause self.old.failing.faults self.new.failing.faults
            (ReadFailed result) }
        ensures still { ¬ ReadFailed result → self.new.failing.faults ≡ self.old.failing.faults }
        ensures next { IsNextCall self.old.failing self.new.failing }
        ensures listed { IsListed self.new.failing → ReadFailed result }
        ensures others { ReadFailed result
            → IsListed self.new.failing ⊎ (self.new.calls ≡ None) }
        ensures answer { ¬ ReadFailed result
            → result ≡ read_at (length into.old) self.old.steps }
        ensures bytes { ¬ ReadFailed result
            → read_in result into.new ≡ take (length into.old) (typed self.old.steps) }
        ensures rest { ¬ ReadFailed result
            → self.new.steps ≡ after_read (length into.old) self.old.steps }
    {
        self.failing.count_call();
        if self.failing.is_listed() {
            self.log.keep_read(into.len(), &[], InputRead::Failed);
            self.failing.fault();
            return InputRead::Failed;
        }
        let answer = self.script.read(into);
        if self.log.keep_read(into.len(), read(answer, into), answer) {
            return answer;
        }
        self.failing.fault();
        InputRead::Failed
    }

    fn send(&mut self, line: u16, datagram: &[u8])
        ensures calls { AddsVenueCall self.old.calls self.new.calls (Send line datagram.now) }
        ensures still { self.new.failing.faults ≡ self.old.failing.faults }
        ensures next { IsNextCall self.old.failing self.new.failing }
        ensures rest { self.new.steps ≡ self.old.steps }
    {
        self.failing.count_call();
        self.log.keep_send(line, datagram);
    }

    fn accept(&mut self, place: u16) -> bool
        ensures calls { AddsVenueCall self.old.calls self.new.calls (Accept place result) }
        ensures still { self.new.failing.faults ≡ self.old.failing.faults }
        ensures next { IsNextCall self.old.failing self.new.failing }
        ensures answer { result ≡ lets_in place self.old.steps }
        ensures rest { self.new.steps ≡ after_accept place self.old.steps }
    {
        self.failing.count_call();
        let came = self.script.accept(place);
        self.log.keep(KeptVenueCall::Accept(place, came));
        came
    }

    fn take(&mut self, place: u16, into: &mut [u8]) -> PeerTaken
        requires { 0 < length into.old }
        ensures count { PeerTakenWithin result into.new }
        ensures calls { AddsVenueCall self.old.calls self.new.calls
            (Take place (length into.old) (taken_in result into.new) result) }
        ensures still { self.new.failing.faults ≡ self.old.failing.faults }
        ensures next { IsNextCall self.old.failing self.new.failing }
        ensures answer { result ≡ taken_at place (length into.old) self.old.steps }
        ensures bytes { taken_in result into.new
            ≡ take (length into.old) (brought place self.old.steps) }
        ensures rest { self.new.steps
            ≡ after_take place (length into.old) self.old.steps }
    {
        self.failing.count_call();
        let answer = self.script.take(place, into);
        self.log
            .keep_take(place, into.len(), taken(answer, into), answer);
        answer
    }

    fn put(&mut self, place: u16, piece: &[u8]) -> PeerPut
        requires { 0 < length piece.now }
        ensures count { PeerPutWithin result piece.now }
        ensures calls { AddsVenueCall self.old.calls self.new.calls
            (Put place piece.now result) }
        ensures still { self.new.failing.faults ≡ self.old.failing.faults }
        ensures next { IsNextCall self.old.failing self.new.failing }
        ensures answer { result ≡ put_at place (length piece.now) self.old.steps }
        ensures rest { self.new.steps ≡ after_put place self.old.steps }
    {
        self.failing.count_call();
        let answer = self.script.put(place, piece.len());
        self.log.keep_put(place, piece, answer);
        answer
    }

    fn close(&mut self, place: u16)
        ensures calls { AddsVenueCall self.old.calls self.new.calls (Close place) }
        ensures still { self.new.failing.faults ≡ self.old.failing.faults }
        ensures next { IsNextCall self.old.failing self.new.failing }
        ensures rest { self.new.steps ≡ self.old.steps }
    {
        self.failing.count_call();
        self.log.keep(KeptVenueCall::Close(place));
    }
}
