//! The command `demo`: it runs both ends of a unit over the net, and says how they ended.

ghost use Rattle.std.specs.Prelude.{◌≡◌, ◌≢◌, Err};
ghost use Rattle.pitch_io.specs.Causes.{HasCause};
ghost use Rattle.stream_print.specs.Told.{told};
ghost use Rattle.pitch_tool.specs.DemoForm.{DemoEnds};
ghost use Rattle.pitch_tool.specs.layers.Doing.{IsDemoCount};
ghost use Rattle.pitch_tool.specs.Devices.{wires};

use crate::failure::Failure;
use net_edge::demo;
use pitch_io::{Net, Sink};
use std::alloc::Global;
use std::sync::Wait;
use stream_print::put_all;

/// Writes where a demo of both ends over the net ended.
pub fn print_demo<R: Wait, O: Sink, N: Net>(
    rt: &R,
    alloc: Global,
    number: u64,
    count: u32,
    out: &mut O,
    net: &mut N,
) -> Result<(), Failure>
    requires { IsDemoCount count }
    ensures ends { DemoEnds number count result
        (told O.written out.old out.new) (wires N.calls N.faults net.old net.new) }
    ensures unread { result ≢ Err Failure.Read }
    ensures write_cause { HasCause
        (O.faults out.old) (O.faults out.new) (result ≡ Err Failure.Write) }
    ensures net_cause { HasCause (N.faults net.old) (N.faults net.new) (result ≡ Err Failure.Net) }
    ensures net_still { result ≢ Err Failure.Net
        → result ≢ Err Failure.OutOfMemory → N.faults net.new ≡ N.faults net.old }
{
    let mut line = Vec::new(alloc);
    demo(rt, alloc, net, number, count, &mut line)?;
    put_all(out, &line)?;
    Ok(())
}
