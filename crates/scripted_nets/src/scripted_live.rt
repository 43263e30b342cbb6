//! A net of lines and peers for tests that stays in memory, answers by a script, lists its calls,
//! and fails where it is told to.

ghost use Rattle.std.specs.Prelude.{◌≡◌, ◌<◌, ◌⊎◌, [], IfOk, None, Some, length, take};
ghost use Rattle.pitch_io.specs.Causes.{HasCause};
ghost use Rattle.live_net.specs.LineCalls.{ReceiveFailed, ReceivedWithin, datagram_in};
ghost use Rattle.live_net.specs.LiveCalls.{AddsLiveCall, Close, Open, PeerPutWithin};
ghost use Rattle.live_net.specs.LiveCalls.{PeerTakenWithin, Put, Receive, Take, Wait};
ghost use Rattle.live_net.specs.LiveCalls.{WaitEndFailed, taken_in};
ghost use Rattle.scripted_nets.specs.layers.Failing.{IsListed, IsNextCall};
ghost use Rattle.scripted_nets.specs.layers.Scripts.{IsAnswer, after_datagram, after_open};
ghost use Rattle.scripted_nets.specs.layers.Scripts.{after_put, after_take, after_wait, brought};
ghost use Rattle.scripted_nets.specs.layers.Scripts.{next_datagram, opened_at, put_at, steps_of};
ghost use Rattle.scripted_nets.specs.layers.Scripts.{taken_at, wait_end_at};

use crate::came::{datagram, taken};
use crate::failing::FailingCalls;
use crate::live_log::{KeptLiveCall, LiveLog};
use crate::script::{NetStep, Script};
use live_net::{LiveNet, PeerOpened, PeerPut, PeerTaken, Received, WaitEnd};
use std::alloc::{AllocError, Global};
use std::marker::Model;

/// A net of lines and peers in memory, which answers by a script.
///
/// A call that asks for what is first in the script takes it out; where something else is first, a
/// line and a peer are quiet, a connection is begun, and all that is put is written. A wait is over
/// at the end of the script. The waits and the lines fail at the calls whose numbers, counted from
/// 1 over all calls, are listed, and where memory is refused. Where memory was refused the net
/// lists its calls no more.
#[derive(Drop)]
pub struct ScriptedLive {
    script: Script,
    log: LiveLog,
    failing: FailingCalls,
}

impl Model for ScriptedLive {
    ghost use Rattle.live_net.specs.LiveCalls.{LiveCall};
    ghost use Rattle.scripted_nets.specs.layers.Logs.{live_calls_of};
    ghost use Rattle.scripted_nets.specs.layers.Scripts.{Scripted};

    ghost Value = { Scripted LiveCall };

    ghost view = { λ n. record {
      steps = n.script;
      calls = live_calls_of n.log;
      failing = n.failing;
    } };
}

impl ScriptedLive {
    /// A net with this script, of which nothing was called yet.
    pub fn make(
        alloc: Global,
        steps: &[NetStep],
        failing: Vec<u64>,
    ) -> Result<ScriptedLive, AllocError>
        ensures { IfOk result (λ net. net ≡ record {
          steps = steps_of steps.now;
          calls = Some [];
          failing = record { listed = failing.items; count = 0; faults = 0 };
        }) }
    {
        Ok(ScriptedLive {
            script: Script::make(alloc, steps)?,
            log: LiveLog::make(alloc),
            failing: FailingCalls::make(failing),
        })
    }

    /// How many calls there were.
    pub fn called(&self) -> u64
        ensures { result ≡ self.now.failing.count }
    {
        self.failing.count()
    }
}

impl LiveNet for ScriptedLive {
    ghost calls = { λ net. net.calls };

    ghost faults = { λ net. net.failing.faults };

    fn wait(&mut self, more: bool) -> WaitEnd
        ensures calls { AddsLiveCall self.old.calls self.new.calls (Wait more result) }
        ensures cause { HasCause self.old.failing.faults self.new.failing.faults
            (WaitEndFailed result) }
        ensures still { ¬ WaitEndFailed result → self.new.failing.faults ≡ self.old.failing.faults }
        ensures next { IsNextCall self.old.failing self.new.failing }
        ensures listed { IsListed self.new.failing → WaitEndFailed result }
        ensures others { WaitEndFailed result
            → IsListed self.new.failing ⊎ (self.new.calls ≡ None) }
        ensures answer { ¬ WaitEndFailed result → result ≡ wait_end_at self.old.steps }
        ensures rest { ¬ WaitEndFailed result → self.new.steps ≡ after_wait self.old.steps }
    {
        self.failing.count_call();
        if self.failing.is_listed() {
            self.log.keep(KeptLiveCall::Wait(more, WaitEnd::Failed));
            self.failing.fault();
            return WaitEnd::Failed;
        }
        let answer = self.script.wait();
        if self.log.keep(KeptLiveCall::Wait(more, answer)) {
            return answer;
        }
        self.failing.fault();
        WaitEnd::Failed
    }

    fn receive(&mut self, line: u16, into: &mut [u8]) -> Received
        requires { 0 < length into.old }
        ensures count { ReceivedWithin result into.new }
        ensures calls { AddsLiveCall self.old.calls self.new.calls
            (Receive line (length into.old) (datagram_in result into.new) result) }
        ensures cause { HasCause self.old.failing.faults self.new.failing.faults
            (ReceiveFailed result) }
        ensures still { ¬ ReceiveFailed result → self.new.failing.faults ≡ self.old.failing.faults }
        ensures next { IsNextCall self.old.failing self.new.failing }
        ensures listed { IsListed self.new.failing → ReceiveFailed result }
        ensures others { ReceiveFailed result
            → IsListed self.new.failing ⊎ (self.new.calls ≡ None) }
        ensures answer { ¬ ReceiveFailed result
            → IsAnswer (next_datagram line self.old.steps) result into.new }
        ensures rest { ¬ ReceiveFailed result
            → self.new.steps ≡ after_datagram line self.old.steps }
    {
        self.failing.count_call();
        if self.failing.is_listed() {
            self.log
                .keep_receive(line, into.len(), &[], Received::Failed);
            self.failing.fault();
            return Received::Failed;
        }
        let answer = self.script.receive(line, into);
        if self
            .log
            .keep_receive(line, into.len(), datagram(answer, into), answer)
        {
            return answer;
        }
        self.failing.fault();
        Received::Failed
    }

    fn open(&mut self, peer: u16) -> PeerOpened
        ensures calls { AddsLiveCall self.old.calls self.new.calls (Open peer result) }
        ensures still { self.new.failing.faults ≡ self.old.failing.faults }
        ensures next { IsNextCall self.old.failing self.new.failing }
        ensures answer { result ≡ opened_at peer self.old.steps }
        ensures rest { self.new.steps ≡ after_open peer self.old.steps }
    {
        self.failing.count_call();
        let answer = self.script.open(peer);
        self.log.keep(KeptLiveCall::Open(peer, answer));
        answer
    }

    fn take(&mut self, peer: u16, into: &mut [u8]) -> PeerTaken
        requires { 0 < length into.old }
        ensures count { PeerTakenWithin result into.new }
        ensures calls { AddsLiveCall self.old.calls self.new.calls
            (Take peer (length into.old) (taken_in result into.new) result) }
        ensures still { self.new.failing.faults ≡ self.old.failing.faults }
        ensures next { IsNextCall self.old.failing self.new.failing }
        ensures answer { result ≡ taken_at peer (length into.old) self.old.steps }
        ensures bytes { taken_in result into.new
            ≡ take (length into.old) (brought peer self.old.steps) }
        ensures rest { self.new.steps ≡ after_take peer (length into.old) self.old.steps }
    {
        self.failing.count_call();
        let answer = self.script.take(peer, into);
        self.log
            .keep_take(peer, into.len(), taken(answer, into), answer);
        answer
    }

    fn put(&mut self, peer: u16, piece: &[u8]) -> PeerPut
        requires { 0 < length piece.now }
        ensures count { PeerPutWithin result piece.now }
        ensures calls { AddsLiveCall self.old.calls self.new.calls
            (Put peer piece.now result) }
        ensures still { self.new.failing.faults ≡ self.old.failing.faults }
        ensures next { IsNextCall self.old.failing self.new.failing }
        ensures answer { result ≡ put_at peer (length piece.now) self.old.steps }
        ensures rest { self.new.steps ≡ after_put peer self.old.steps }
    {
        self.failing.count_call();
        let answer = self.script.put(peer, piece.len());
        self.log.keep_put(peer, piece, answer);
        answer
    }

    fn close(&mut self, peer: u16)
        ensures calls { AddsLiveCall self.old.calls self.new.calls (Close peer) }
        ensures still { self.new.failing.faults ≡ self.old.failing.faults }
        ensures next { IsNextCall self.old.failing self.new.failing }
        ensures rest { self.new.steps ≡ self.old.steps }
    {
        self.failing.count_call();
        self.log.keep(KeptLiveCall::Close(peer));
    }
}
