//! A net of lines and peers as one of lines alone: it tells no second.

ghost use Rattle.std.specs.Prelude.{◌≡◌, ◌<◌, length};
ghost use Rattle.pitch_io.specs.Causes.{HasCause};
ghost use Rattle.live_net.specs.LineCalls.{AddsCall, Receive, ReceiveFailed, ReceivedWithin, Wait};
ghost use Rattle.live_net.specs.LineCalls.{WaitFailed, datagram_in};
ghost use Rattle.scripted_nets.specs.layers.Failing.{IsListed, IsNextCall};
ghost use Rattle.scripted_nets.specs.layers.Lines.{woken_by};
ghost use Rattle.scripted_nets.specs.layers.Scripts.{IsAnswer, after_datagram, after_wait};
ghost use Rattle.scripted_nets.specs.layers.Scripts.{next_datagram, wait_end_at};

use crate::scripted_live::ScriptedLive;
use live_net::{LineNet, LiveNet, Received, WaitEnd, Woken};

impl LineNet for ScriptedLive {
    ghost use Rattle.scripted_nets.specs.layers.Lines.{line_calls};

    ghost calls = { λ net. line_calls net.calls };

    ghost faults = { λ net. net.failing.faults };

    fn wait(&mut self, more: bool) -> Woken
        ensures calls { AddsCall (line_calls self.old.calls) (line_calls self.new.calls)
            (Wait more result) }
        ensures cause { HasCause self.old.failing.faults self.new.failing.faults
            (WaitFailed result) }
        ensures still { ¬ WaitFailed result → self.new.failing.faults ≡ self.old.failing.faults }
        ensures next { IsNextCall self.old.failing self.new.failing }
        ensures listed { IsListed self.new.failing → WaitFailed result }
        ensures answer { ¬ WaitFailed result → result ≡ woken_by (wait_end_at self.old.steps) }
        ensures rest { ¬ WaitFailed result → self.new.steps ≡ after_wait self.old.steps }
    {
        match LiveNet::wait(self, more) {
            WaitEnd::Ready | WaitEnd::Second => Woken::Ready,
            WaitEnd::Over => Woken::Over,
            WaitEnd::Failed => Woken::Failed,
        }
    }

    fn receive(&mut self, line: u16, into: &mut [u8]) -> Received
        requires { 0 < length into.old }
        ensures count { ReceivedWithin result into.new }
        ensures calls { AddsCall (line_calls self.old.calls) (line_calls self.new.calls)
            (Receive line (length into.old) (datagram_in result into.new) result) }
        ensures cause { HasCause self.old.failing.faults self.new.failing.faults
            (ReceiveFailed result) }
        ensures still { ¬ ReceiveFailed result
            → self.new.failing.faults ≡ self.old.failing.faults }
        ensures next { IsNextCall self.old.failing self.new.failing }
        ensures listed { IsListed self.new.failing → ReceiveFailed result }
        ensures answer { ¬ ReceiveFailed result
            → IsAnswer (next_datagram line self.old.steps) result into.new }
        ensures rest { ¬ ReceiveFailed result
            → self.new.steps ≡ after_datagram line self.old.steps }
    {
        LiveNet::receive(self, line, into)
    }
}
