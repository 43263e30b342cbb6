//! The job of a form is done. Those that read no stream have a module each.

ghost use Rattle.std.specs.Prelude.{◌≡◌, ◌≢◌, false, Err};
ghost use Rattle.pitch_io.specs.Causes.{HasCause};
ghost use Rattle.pitch_words.specs.layers.Commands.{IsInRange};
ghost use Rattle.stream_print.specs.Told.{told, TakesAtMost};
ghost use Rattle.pitch_tool.specs.Devices.{wires};
ghost use Rattle.pitch_tool.specs.Jobs.{JobEnds, StopsInTime, most_taken, uses_net};

pub mod audit;
pub mod demo;
pub mod drill;
pub mod pack;
pub mod replay;
pub mod storm;

use crate::commands::audit::print_audit;
use crate::commands::demo::print_demo;
use crate::commands::drill::print_drill;
use crate::commands::storm::print_storm;
use crate::failure::Failure;
use crate::stream::{carrier_of, printed_of};
use crate::text::print_text;
use pitch_io::{Gate, Net, Sink, Source};
use pitch_words::Form;
use std::alloc::Global;
use std::sync::Wait;
use std::thread::Threads;
use std::time::Clock;
use storm_replay::Storm;
use stream_print::print_stream;

/// Does the job of a form: what it reads, writes and puts on the net is what the form asks for.
#[tactic(auto, using(crate::proofs::Storms::takes_none, crate::proofs::Storms::no_read_fault))]
pub fn do_job<R: Threads + Wait + Clock + Sync, I: Source, O: Sink, N: Net, G: Gate + Sync>(
    rt: &R,
    alloc: Global,
    form: Form,
    input: &mut I,
    out: &mut O,
    net: &mut N,
    gate: &G,
) -> Result<(), Failure>
    requires { IsInRange form }
    ensures ends { JobEnds form result (told I.left input.old input.new)
        (told O.written out.old out.new) (wires N.calls N.faults net.old net.new) }
    ensures reads { TakesAtMost (most_taken form) (told I.left input.old input.new) }
    ensures stops { StopsInTime form (told I.left input.old input.new) }
    ensures read_cause { HasCause
        (I.faults input.old) (I.faults input.new) (result ≡ Err Failure.Read) }
    ensures write_cause { HasCause
        (O.faults out.old) (O.faults out.new) (result ≡ Err Failure.Write) }
    ensures net_cause { HasCause (N.faults net.old) (N.faults net.new) (result ≡ Err Failure.Net) }
    ensures net_still { result ≢ Err Failure.Net
        → result ≢ Err Failure.OutOfMemory → N.faults net.new ≡ N.faults net.old }
    ensures unused { uses_net form ≡ false → net.new ≡ net.old }
{
    match form {
        Form::Stream { carried, form } => {
            print_stream(alloc, carrier_of(carried), printed_of(form), input, out)?;
            Ok(())
        }
        Form::Text(form) => print_text(rt, alloc, form, input, out, gate),
        Form::Audit => print_audit(alloc, input, out),
        Form::Storm {
            number,
            units,
            steps,
            workers,
        } => {
            let storm = Storm {
                number,
                units,
                steps,
            };
            print_storm(rt, alloc, storm, workers, out, gate)
        }
        Form::Drill {
            number,
            units,
            count,
        } => print_drill(rt, alloc, number, units, count, out, gate),
        Form::Demo { number, count } => print_demo(rt, alloc, number, count, out, net),
    }
}
