//! The net over these sockets.

ghost use Rattle.std.specs.Prelude.{◌≡◌, ◌<◌, None, length, IfOk};
ghost use Rattle.pitch_io.specs.Causes.{HasCause};
ghost use Rattle.live_net.specs.LineCalls.{ReceiveFailed, ReceivedWithin, WaitFailed};

use crate::lines::Lines;
use crate::port::{Port, take_low};
use crate::trouble::Trouble;
use crate::waiter::Waiter;
use live_net::{LineNet, Received, Woken};
use std::alloc::Global;
use std::io::Read;
use std::marker::Model;
use std::net;
use std::net::IpAddr;
use std::os::fd::AsRawFd;
use std::time::Clock;

/// A net over UDP sockets. It does not tell its calls.
///
/// A wait ends where a datagram came or a signal, and is over where the input is at its end or so
/// many seconds have passed; what waits on the lines by then is asked for first, in at most 1,024
/// turns. What the input says is passed over. A file never ends a run, nor does a closed input.
#[derive(Drop)]
pub struct LineSockets<R, I> {
    waiter: Waiter<R, I>,
    lines: Lines,
    trouble: Option<Trouble>,
    faults: u64,
}

impl<R, I> Model for LineSockets<R, I> {
    ghost use Rattle.line_sockets.specs.layers.Opening.{OpenLines};

    ghost Value = { OpenLines };

    ghost view = { λ n. record { lines = n.lines; faults = n.faults } };
}

impl<R: net::Net + Clock + Drop, I: Read + AsRawFd + Drop> LineSockets<R, I> {
    /// Opens a line for each port, in their order, for so many seconds from now, where they are
    /// limited. Where senders are named, a datagram of another one is as one without bytes. No
    /// socket takes one of the descriptors 0 to 2.
    pub fn open(
        rt: R,
        alloc: Global,
        ports: &[Port],
        from: &[IpAddr],
        input: I,
        seconds: Option<u64>,
    ) -> Result<LineSockets<R, I>, Trouble>
        ensures lines { IfOk result (λ net. net.lines ≡ length ports.now) }
        ensures faults { IfOk result (λ net. net.faults ≡ 0) }
    {
        let _low = take_low(&rt).map_err(Trouble::of_wait)?;
        let waiter = Waiter::make(rt, alloc, ports.len(), input, seconds).map_err(
            Trouble::of_wait,
        )?;
        let lines = Lines::open(waiter.runtime(), alloc, waiter.registry(), ports, from)?;
        Ok(LineSockets {
            waiter,
            lines,
            trouble: None,
            faults: 0,
        })
    }

    /// What the system said at the last fault.
    pub fn trouble(&self) -> Option<&Trouble> {
        self.trouble.as_ref()
    }

    // Keeps what the system said, and counts a fault.
    fn fault(&mut self, trouble: Trouble)
        ensures cause { HasCause self.old.faults self.new.faults (Unit {0}) }
        ensures same { self.new.lines ≡ self.old.lines }
    {
        self.trouble = Some(trouble);
        self.faults = self.faults.saturating_add(1);
    }
}

impl<R: net::Net + Clock + Drop, I: Read + AsRawFd + Drop> LineNet for LineSockets<R, I> {
    ghost calls = { λ _. None };

    ghost faults = { λ net. net.faults };

    fn wait(&mut self, more: bool) -> Woken
        ensures cause { HasCause self.old.faults self.new.faults (WaitFailed result) }
        ensures still { ¬ WaitFailed result → self.new.faults ≡ self.old.faults }
        ensures same { self.new.lines ≡ self.old.lines }
    {
        match self.waiter.wake(more, None) {
            Ok(true) => Woken::Ready,
            Ok(false) => Woken::Over,
            Err(reason) => {
                self.fault(Trouble::of_wait(reason));
                Woken::Failed
            }
        }
    }

    fn receive(&mut self, line: u16, into: &mut [u8]) -> Received
        requires { 0 < length into.old }
        ensures count { ReceivedWithin result into.new }
        ensures cause { HasCause self.old.faults self.new.faults (ReceiveFailed result) }
        ensures still { ¬ ReceiveFailed result → self.new.faults ≡ self.old.faults }
        ensures open { ¬ ReceiveFailed result → line < self.old.lines }
        ensures same { self.new.lines ≡ self.old.lines }
    {
        match self.lines.receive(line, into) {
            Ok(received) => received,
            Err(trouble) => {
                self.fault(trouble);
                Received::Failed
            }
        }
    }
}
