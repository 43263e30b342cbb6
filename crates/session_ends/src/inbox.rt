//! The bytes of a session as they come in, in pieces, and counted.

ghost use Rattle.std.specs.Prelude.{◌≡◌, ◌+◌, ◌≤◌, length, IfOk, OnOk};
ghost use Rattle.unit_packets.specs.Causes.{counted};
ghost use Rattle.unit_packets.specs.Pieces.{unread, loaded, passed};
ghost use Rattle.session_ends.specs.layers.Hearing.{nothing_fed};

use crate::closed::Closed;
use crate::lent::LentRaw;
use pitch_fields::OutOfMemory;
use std::alloc::Global;
use std::marker::Model;
use std::mem::replace;
use unit_packets::BlockReader;

/// What a stream says next to an end: a message with its place, that its block ends, or what breaks
/// the stream.
#[derive(Drop)]
pub enum Heard<'a> {
    Message { place: u64, raw: LentRaw<'a> },
    BlockEnd,
    Broken(Closed),
}

/// Takes in the bytes of a stream, in whatever pieces they come.
#[derive(Drop)]
pub struct Inbox {
    alloc: Global,
    reader: BlockReader,
    fed: u64,
}

impl Model for Inbox {
    ghost use Rattle.session_ends.specs.Inboxes.{Inboxed};

    ghost Value = { Inboxed };

    ghost view = { λ i. record { reading = i.reader; fed = i.fed } };
}

impl Inbox {
    /// An inbox that was fed nothing. It takes no memory.
    pub fn make(alloc: Global) -> Inbox
        ensures { result ≡ nothing_fed }
    {
        Inbox {
            alloc,
            reader: BlockReader::make(alloc),
            fed: 0,
        }
    }

    /// How many bytes were fed; the number stays at the type's end.
    pub fn fed(&self) -> u64
        ensures { result ≡ self.now.fed }
    {
        self.fed
    }

    /// Takes in a piece, and hands out the reader that has it.
    #[inline(always)]
    pub fn take(&mut self, piece: &[u8]) -> Result<BlockReader, OutOfMemory>
        ensures reader { IfOk result (λ reader. reader ≡ loaded self.old.reading piece.now) }
        ensures fed { self.new.fed ≡ counted (self.old.fed + length piece.now) }
    {
        self.fed = self.fed.saturating_add(piece.len() as u64);
        self.reader.load(piece)?;
        Ok(replace(&mut self.reader, BlockReader::make(self.alloc)))
    }

    /// Takes the reader back, the first bytes of which were passed.
    #[inline(always)]
    pub fn put_back(&mut self, reader: BlockReader, count: usize)
        requires { count ≤ length reader.rest }
        ensures { self.new ≡ record { reading = passed reader count; fed = self.old.fed } }
    {
        self.reader = reader;
        self.reader.pass(count);
    }
}
