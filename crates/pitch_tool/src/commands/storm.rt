//! The command `storm`: it makes a schedule from a number, replays it, and sums it up.

ghost use Rattle.std.specs.Prelude.{◌≡◌, ◌≢◌, Err};
ghost use Rattle.pitch_io.specs.Causes.{HasCause};
ghost use Rattle.stream_print.specs.Told.{told};
ghost use Rattle.pitch_tool.specs.StormForm.{StormEnds};
ghost use Rattle.pitch_tool.specs.layers.Doing.{IsStorm};
ghost use Rattle.pitch_tool.specs.layers.Doing.{AreWorkers};

use crate::failure::Failure;
use pitch_io::{Gate, Sink};
use schedule_replay::WorldList;
use std::alloc::Global;
use std::thread::Threads;
use storm_replay::{Storm, run_storm};
use stream_print::put_all;

/// Writes the summary of a storm, once all its units have ended.
#[tactic(auto, using(crate::proofs::Storms::storm_is_run, crate::proofs::Storms::writes_summary, crate::proofs::Storms::writes_some))]
pub fn print_storm<R: Threads + Sync, O: Sink, G: Gate + Sync>(
    rt: &R,
    alloc: Global,
    storm: Storm,
    workers: u8,
    out: &mut O,
    gate: &G,
) -> Result<(), Failure>
    requires storm { IsStorm storm.units storm.steps }
    requires workers { AreWorkers workers }
    ensures ends { StormEnds storm.number storm.units storm.steps
        result (told O.written out.old out.new) }
    ensures unread { result ≢ Err Failure.Read }
    ensures write_cause { HasCause
        (O.faults out.old) (O.faults out.new) (result ≡ Err Failure.Write) }
{
    let mut worlds = WorldList::make(alloc);
    let mut summary = Vec::new(alloc);
    run_storm(rt, alloc, storm, workers, gate, &mut worlds, &mut summary)?;
    put_all(out, &summary)?;
    Ok(())
}
