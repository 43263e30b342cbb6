//! A schedule, on one thread or on several.

ghost use Rattle.std.specs.Prelude.{◌≡◌, ◌≤◌, ◌++◌, ◌⊎◌, List, ℕ, length, take, OnOk, OnErr, IfErr};
ghost use Rattle.std.specs.Prelude.{Ok, Err};
ghost use Rattle.pitch_fields.specs.Limits.{text_limit};
ghost use Rattle.schedule_replay.specs.layers.Apart.{most_workers};
ghost use Rattle.schedule_replay.specs.Replay.{replay_of};
ghost use Rattle.schedule_replay.specs.layers.Places.{AddsWorlds};
ghost use Rattle.schedule_replay.specs.declared.error.ReplayError.TheVariants as errors;

use crate::apart::replay_apart;
use crate::error::ReplayError;
use crate::running::{WorldList, replay_together};
use crate::unrun::CantRunApart;
use pitch_io::Gate;
use std::alloc::Global;
use std::thread::Threads;

// Replays the lines of a text: on one thread where one worker is given, or where its units can't be
// run apart. After an error some text may have been appended.
fn replay_lines<R: Threads + Sync, G: Gate + Sync>(
    rt: &R,
    alloc: Global,
    text: &[u8],
    workers: u8,
    gate: &G,
    worlds: &mut WorldList,
    out: &mut Vec<u8>,
) -> Result<(), ReplayError>
    requires size { length text.now ≤ text_limit }
    requires workers { (1 ≤ workers) × (workers ≤ most_workers) }
    ensures written { OnOk result ((written : List ℕ)
        × (replay_of text.now ≡ Ok written) × (out.new.items ≡ out.old.items ++ written)) }
    ensures worlds { OnOk result (AddsWorlds text.now worlds.old.items worlds.new.items) }
    ensures cause { IfErr result
        (λ error. (error ≡ errors.OutOfMemory) ⊎ (replay_of text.now ≡ Err error)) }
    ensures kept { OnErr result (worlds.new.items ≡ worlds.old.items) }
    ensures behind { take (length out.old.items) out.new.items ≡ out.old.items }
{
    if workers == 1 {
        return replay_together(alloc, gate, text, worlds, out);
    }
    let before = out.len();
    match replay_apart(rt, alloc, text, workers, gate, worlds, out) {
        Ok(()) => Ok(()),
        Err(CantRunApart::OutOfMemory) => Err(ReplayError::OutOfMemory),
        Err(CantRunApart::NotApart) => {
            out.truncate(before);
            replay_together(alloc, gate, text, worlds, out)
        }
    }
}

/// Replays a schedule: does each line in the world of its unit, in the text's order. Appends what
/// the lines write to `out`, and to `worlds` the world of each unit that a line names, by rising
/// unit, in which all the unit's lines were done.
///
/// A text has at most 67,108,864 bytes. `Text` is its first fault: nothing is kept of the lines
/// before. After an error `out` and `worlds` are as before.
///
/// With 1 worker the text is gone over once, on this thread. With up to 64 each unit is run whole,
/// in one of so many pieces of work at most, which may run beside one another; what comes of it is
/// the same. The gate is called before a unit's first line is done and after its last, with the
/// step 1. A text with a fault, or with a line of no unit from 1 to 64, is then gone over once more
/// on this thread, and the gate is told of its units again.
pub fn replay<R: Threads + Sync, G: Gate + Sync>(
    rt: &R,
    alloc: Global,
    text: &[u8],
    workers: u8,
    gate: &G,
    worlds: &mut WorldList,
    out: &mut Vec<u8>,
) -> Result<(), ReplayError>
    requires size { length text.now ≤ text_limit }
    requires workers { (1 ≤ workers) × (workers ≤ most_workers) }
    ensures written { OnOk result ((written : List ℕ)
        × (replay_of text.now ≡ Ok written) × (out.new.items ≡ out.old.items ++ written)) }
    ensures worlds { OnOk result (AddsWorlds text.now worlds.old.items worlds.new.items) }
    ensures cause { IfErr result
        (λ error. (error ≡ errors.OutOfMemory) ⊎ (replay_of text.now ≡ Err error)) }
    ensures kept_text { OnErr result (out.new.items ≡ out.old.items) }
    ensures kept_worlds { OnErr result (worlds.new.items ≡ worlds.old.items) }
{
    let start = out.len();
    match replay_lines(rt, alloc, text, workers, gate, worlds, out) {
        Ok(()) => Ok(()),
        Err(error) => {
            out.truncate(start);
            Err(error)
        }
    }
}
