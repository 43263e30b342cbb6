//! Reads a source to its end into memory, up to a limit.

ghost use Rattle.std.specs.Prelude.{◌≡◌, ◌≤◌, ◌<◌, ◌+◌, ◌^◌, IfOk, IfErr, Err, length};
ghost use Rattle.pitch_io.specs.Causes.{HasCause};
ghost use Rattle.stream_print.specs.Inputs.{ReadsAll};
ghost use Rattle.stream_print.specs.Told.{told, TakesAtMost};
ghost use Rattle.pitch_tool.specs.layers.Reading.{IsUnread};

use crate::failure::{Failure, Trouble};
use pitch_io::{Source, Taken};
use std::alloc::Global;
use stream_print::{PIECE, piece_buffer, take_at_most};

/// Reads the whole input of a source. Where it has more than `most` bytes, `long` is what is wrong
/// with it.
pub fn read_whole<I: Source>(
    alloc: Global,
    input: &mut I,
    most: usize,
    long: Trouble,
) -> Result<Vec<u8>, Failure>
    requires { most < 2 ^ 32 }
    ensures read { IfOk result (λ bytes. ReadsAll (told I.left input.old input.new) bytes.items) }
    ensures small { IfOk result (λ bytes. length bytes.items ≤ most) }
    ensures unread { IfErr result (IsUnread most long (told I.left input.old input.new)) }
    // However it ended, at most one byte was taken past the limit.
    ensures reads { TakesAtMost (most + 1) (told I.left input.old input.new) }
    ensures cause { HasCause (I.faults input.old) (I.faults input.new) (result ≡ Err Failure.Read) }
{
    let mut bytes = Vec::new(alloc);
    let mut piece = piece_buffer(alloc, PIECE)?;
    'takes: for turn in 0..most + 1 {
        match take_at_most(input, &mut piece, most + 1 - bytes.len()) {
            Taken::Got(count) => {
                if count > most - bytes.len() {
                    return Err(Failure::BadInput(long));
                }
                if bytes.extend_from_slice(&piece[..count]).is_err() {
                    return Err(Failure::OutOfMemory);
                }
            }
            Taken::End => return Ok(bytes),
            Taken::Failed => return Err(Failure::Read),
        }
    }
    unreachable!()
}
