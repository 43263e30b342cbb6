//! The command `drill`: it runs the threads of all units, and says where each client ended.

ghost use Rattle.std.specs.Prelude.{◌≡◌, ◌≢◌, Err};
ghost use Rattle.pitch_io.specs.Causes.{HasCause};
ghost use Rattle.stream_print.specs.Told.{told};
ghost use Rattle.pitch_tool.specs.DrillForm.{DrillEnds};
ghost use Rattle.pitch_tool.specs.layers.Doing.{IsDrill};

use crate::failure::Failure;
use pitch_io::{Gate, Sink};
use std::alloc::Global;
use std::sync::Wait;
use std::thread::Threads;
use std::time::Clock;
use stream_print::put_all;
use unit_threads::drill;

/// Writes where the units of a drill ended, once all its threads have.
#[tactic(auto, using(crate::proofs::Storms::writes_summary, crate::proofs::Storms::writes_some))]
pub fn print_drill<R: Threads + Wait + Clock + Sync, O: Sink, G: Gate + Sync>(
    rt: &R,
    alloc: Global,
    number: u64,
    units: u8,
    count: u32,
    out: &mut O,
    gate: &G,
) -> Result<(), Failure>
    requires { IsDrill units count }
    ensures ends { DrillEnds number units count result (told O.written out.old out.new) }
    ensures unread { result ≢ Err Failure.Read }
    ensures write_cause { HasCause
        (O.faults out.old) (O.faults out.new) (result ≡ Err Failure.Write) }
{
    let mut lines = Vec::new(alloc);
    drill(rt, alloc, number, units, count, gate, &mut lines)?;
    put_all(out, &lines)?;
    Ok(())
}
