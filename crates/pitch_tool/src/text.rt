//! The job of `pack` and `replay`: read a text whole, and write what it makes.

ghost use Rattle.std.specs.Prelude.{◌≡◌, ◌≤◌, ◌+◌, IfOk, IfErr, Err, Ok, length};
ghost use Rattle.pitch_fields.specs.Limits.{text_limit};
ghost use Rattle.pitch_io.specs.Causes.{HasCause};
ghost use Rattle.stream_print.specs.Told.{told, TakesAtMost};
ghost use Rattle.pitch_tool.specs.TextForms.{made, IsMadeOf};
ghost use Rattle.pitch_tool.specs.layers.Doing.{CanMake};
ghost use Rattle.pitch_tool.specs.layers.Failures.{IsUnmade};
ghost use Rattle.pitch_tool.specs.TextForms.{TextEnds};

use crate::commands::pack::pack;
use crate::commands::replay::replay;
use crate::failure::{Failure, Trouble};
use crate::reading::read_whole;
use pitch_fields::TEXT_LIMIT;
use pitch_io::{Gate, Sink, Source};
use pitch_words::TextWords;
use std::alloc::Global;
use std::thread::Threads;
use stream_print::put_all;

// What a form makes of a text.
fn make<R: Threads + Sync, G: Gate + Sync>(
    rt: &R,
    alloc: Global,
    form: TextWords,
    text: &[u8],
    gate: &G,
) -> Result<Vec<u8>, Failure>
    requires size { length text.now ≤ text_limit }
    requires can { CanMake form }
    ensures made { IfOk result (λ bytes. made form text.now ≡ Ok bytes.items) }
    ensures made_of { IfOk result (λ bytes. IsMadeOf form text.now bytes.items) }
    ensures unmade { IfErr result (IsUnmade (made form text.now)) }
{
    match form {
        TextWords::Pack { unit } => pack(alloc, unit, text),
        TextWords::Replay { workers } => replay(rt, alloc, text, workers, gate),
    }
}

/// Reads the whole text of a source, and writes what the form makes of it. Nothing is written
/// before all of that is known. The text has at most `TEXT_LIMIT` bytes.
#[tactic(auto, using(crate::proofs::Texts::text_unmade))]
pub fn print_text<R: Threads + Sync, I: Source, O: Sink, G: Gate + Sync>(
    rt: &R,
    alloc: Global,
    form: TextWords,
    input: &mut I,
    out: &mut O,
    gate: &G,
) -> Result<(), Failure>
    requires { CanMake form }
    ensures ends { TextEnds form text_limit result
        (told I.left input.old input.new) (told O.written out.old out.new) }
    // However it ended, at most one byte was taken past the limit.
    ensures reads { TakesAtMost (text_limit + 1) (told I.left input.old input.new) }
    ensures read_cause { HasCause
        (I.faults input.old) (I.faults input.new) (result ≡ Err Failure.Read) }
    ensures write_cause { HasCause
        (O.faults out.old) (O.faults out.new) (result ≡ Err Failure.Write) }
{
    let text = read_whole(alloc, input, TEXT_LIMIT, Trouble::LongText)?;
    let bytes = make(rt, alloc, form, &text, gate)?;
    put_all(out, &bytes)?;
    Ok(())
}
