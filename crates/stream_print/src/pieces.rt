//! The pieces in which a source is read: their size, a buffer, and a take within a limit.

ghost use Rattle.std.specs.Prelude.{◌≡◌, ◌<◌, IfOk, length};
ghost use Rattle.stream_print.specs.Sinks.{CountsFault};
ghost use Rattle.pitch_io.specs.layers.Taking.{Takes, TakeFailed};
ghost use Rattle.stream_print.specs.layers.Pieces.{IsBetween};

use pitch_fields::OutOfMemory;
use pitch_io::{Source, Taken};
use std::alloc::Global;

/// How many bytes are taken from a source at once.
pub const PIECE: usize = 65536;

/// A buffer for a piece of a source.
pub fn piece_buffer(alloc: Global, size: usize) -> Result<Vec<u8>, OutOfMemory>
    ensures { IfOk result (λ piece. length piece.items ≡ size) }
{
    Ok(Vec::from_elem(alloc, 0u8, size)?)
}

/// Takes the next bytes of a source to the start of a buffer, and no more than `most` of them.
pub fn take_at_most<I: Source>(input: &mut I, piece: &mut [u8], most: usize) -> Taken
    requires some { 0 < most }
    requires room { 0 < length piece.old }
    ensures count { IsBetween result most piece.new }
    ensures bytes { Takes (I.left input.old) (I.left input.new) result piece.new }
    ensures size { length piece.new ≡ length piece.old }
    ensures cause { CountsFault I.faults input.old input.new (TakeFailed result) }
{
    let count = piece.len().min(most);
    input.take(&mut piece[..count])
}
