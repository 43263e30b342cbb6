//! The unread rest of a stream, on which the block reader and the capture reader are built.

ghost use Rattle.std.specs.Prelude.{◌≡◌, ◌≤◌, length, drop, vec_len, OnOk, OnErr};
ghost use Rattle.unit_packets.specs.Pieces.{unread, loaded, passed, kept};

use pitch_fields::OutOfMemory;
use std::alloc::Global;
use std::marker::Model;

// Drops the first bytes of a buffer.
fn keep_from(buffer: &mut Vec<u8>, start: usize)
    requires { start ≤ vec_len buffer.old }
    ensures { buffer.new.items ≡ drop start buffer.old.items }
{
    let left = buffer.len() - start;
    buffer.copy_within(start.., 0);
    buffer.truncate(left);
}

/// The rest of a stream that comes in pieces: the bytes that were loaded and not yet passed, and
/// their place in the stream. Its memory grows with the longest rest alone.
#[derive(Drop)]
pub struct StreamRest {
    buffer: Vec<u8>,
    start: usize,
    place: u64,
}

impl Model for StreamRest {
    ghost use Rattle.std.specs.Prelude.{◌≤◌, drop, vec_len};
    ghost use Rattle.unit_packets.specs.Reading.{Reading};

    ghost Value = { Reading };

    ghost view = { λ r. record { place = r.place; rest = drop r.start r.buffer.items } };

    ghost invariant = { λ r. r.start ≤ vec_len r.buffer };
}

impl StreamRest {
    /// Nothing was loaded. It takes no memory.
    pub fn make(alloc: Global) -> StreamRest
        ensures { result ≡ unread }
    {
        StreamRest {
            buffer: Vec::new(alloc),
            start: 0,
            place: 0,
        }
    }

    /// The allocator that its memory comes from.
    pub fn allocator(&self) -> Global
        // There is one alone.
        ensures { (alloc : Global) → result ≡ alloc }
    {
        *self.buffer.allocator()
    }

    /// The place of the rest in the stream, in bytes; it stays at the type's end.
    pub fn place(&self) -> u64
        ensures { result ≡ self.now.place }
    {
        self.place
    }

    /// The bytes loaded and not yet passed.
    pub fn rest(&self) -> &[u8]
        ensures { result.now ≡ self.now.rest }
    {
        &self.buffer[self.start..]
    }

    /// Loads the next piece of the stream. All is as before where memory runs out.
    pub fn load(&mut self, piece: &[u8]) -> Result<(), OutOfMemory>
        ensures ok { OnOk result (self.new ≡ loaded self.old piece.now) }
        ensures err { OnErr result (self.new ≡ self.old) }
    {
        if self.start > 0 {
            keep_from(&mut self.buffer, self.start);
            self.start = 0;
        }
        self.buffer.extend_from_slice(piece)?;
        Ok(())
    }

    /// Passes the first `count` bytes of the rest.
    pub fn pass(&mut self, count: usize)
        requires { count ≤ length self.old.rest }
        ensures { self.new ≡ passed self.old count }
    {
        self.start += count;
        self.place = self.place.saturating_add(count as u64);
    }

    /// Keeps the first `count` bytes of the rest, and drops what follows them.
    pub fn keep(&mut self, count: usize)
        requires { count ≤ length self.old.rest }
        ensures { self.new ≡ kept self.old count }
    {
        self.buffer.truncate(self.start + count);
    }
}
