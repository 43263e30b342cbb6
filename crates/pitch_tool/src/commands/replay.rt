//! The command `replay`: a schedule comes in, and the text of each of its lines goes out.

ghost use Rattle.std.specs.Prelude.{◌≡◌, ◌≤◌, Ok, IfOk, IfErr, length};
ghost use Rattle.pitch_fields.specs.Limits.{text_limit};
ghost use Rattle.pitch_tool.specs.TextForms.{made, IsMadeOf};
ghost use Rattle.pitch_tool.specs.layers.Doing.{AreWorkers};
ghost use Rattle.pitch_tool.specs.layers.Failures.{IsUnmade};
ghost use Rattle.pitch_words.specs.declared.form.TextWords.TheVariants.{Replay};

use crate::failure::Failure;
use pitch_io::Gate;
use schedule_replay::WorldList;
use std::alloc::Global;
use std::thread::Threads;

/// What the lines of a schedule write, each done in the world of its unit.
pub fn replay<R: Threads + Sync, G: Gate + Sync>(
    rt: &R,
    alloc: Global,
    text: &[u8],
    workers: u8,
    gate: &G,
) -> Result<Vec<u8>, Failure>
    requires size { length text.now ≤ text_limit }
    requires workers { AreWorkers workers }
    ensures made { IfOk result (λ written. made (Replay workers) text.now ≡ Ok written.items) }
    ensures run { IfOk result (λ written. IsMadeOf (Replay workers) text.now written.items) }
    ensures unmade { IfErr result (IsUnmade (made (Replay workers) text.now)) }
{
    let mut worlds = WorldList::make(alloc);
    let mut written = Vec::new(alloc);
    schedule_replay::replay(rt, alloc, text, workers, gate, &mut worlds, &mut written)?;
    Ok(written)
}
