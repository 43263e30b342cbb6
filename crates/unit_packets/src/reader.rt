//! Cuts a stream into blocks as its pieces come, up to its first fault.

ghost use Rattle.std.specs.Prelude.{◌≡◌, ℕ, ◌≤◌, List, ◌++◌, [], ◌∷◌, length, take, drop, vec_len};
ghost use Rattle.std.specs.Prelude.{IfOk, OnOk, OnErr, Err, true};
ghost use Rattle.unit_packets.specs.Cutting.{blocks_of, place_of, fault_in, fault_from};
ghost use Rattle.unit_packets.specs.Feeding.{StandsFor, kept_fault};
ghost use Rattle.unit_packets.specs.Pieces.{Feeds, WithMemory, IsRepeated, fed_answer};
ghost use Rattle.unit_packets.specs.Pieces.{ended_answer, ended_fault};
ghost use Rattle.unit_packets.specs.Pieces.{unread, loaded, passed, kept};

use crate::block::{BlockList, FeedError};
use crate::blocks::Blocks;
use crate::header::{BlockError, BlockFault};
use crate::judge::read_block;
use crate::rest::StreamRest;
use crate::view::BlockView;
use pitch_fields::OutOfMemory;
use std::alloc::Global;
use std::marker::Model;

// The error is one that more bytes do not mend, or the stream has ended.
fn fault_from(ended: bool, place: u64, error: BlockError) -> Option<BlockFault>
    ensures { result ≡ fault_from ended place (Err error) }
{
    if !ended && error.is_truncated() {
        return None;
    }
    Some(BlockFault { place, error })
}

// The fault of the bytes at a place after the whole blocks.
fn fault_in(ended: bool, place: u64, rest: &[u8]) -> Option<BlockFault>
    ensures { result ≡ fault_in ended place rest.now }
{
    if rest.is_empty() {
        return None;
    }
    match read_block(rest) {
        Ok(_) => None,
        Err(error) => fault_from(ended, place, error),
    }
}

fn answer(fault: Option<BlockFault>) -> Result<(), FeedError>
    ensures { result ≡ fed_answer fault }
{
    match fault {
        None => Ok(()),
        Some(fault) => Err(FeedError::Fault(fault)),
    }
}

// Appends a copy of a lent block.
fn push_copy(alloc: Global, view: &BlockView<'_>, out: &mut BlockList) -> Result<(), OutOfMemory>
    ensures ok { OnOk result (out.new.items ≡ out.old.items ++ view.now ∷ []) }
    ensures err { OnErr result (out.new.items ≡ out.old.items) }
{
    let block = view.to_block(alloc)?;
    out.push(block)
}

// Appends the blocks with which the bytes begin. Answers how many bytes they have.
fn cut_blocks(alloc: Global, bytes: &[u8], out: &mut BlockList) -> Result<usize, OutOfMemory>
    ensures place { IfOk result (λ passed. passed ≡ place_of bytes.now) }
    ensures ok { OnOk result (out.new.items ≡ out.old.items ++ blocks_of bytes.now) }
    ensures err { OnErr result (out.new.items ≡ out.old.items) }
{
    let before = out.len();
    let mut blocks = Blocks::of_bytes(bytes);
    'next: while let Some(view) = blocks.next_block() {
        match push_copy(alloc, &view, out) {
            Ok(()) => {}
            Err(error) => {
                out.truncate(before);
                return Err(error);
            }
        }
    }
    Ok(bytes.len() - blocks.rest().len())
}

/// Cuts a stream that comes in pieces into blocks. What is loaded and not yet passed is the
/// stream's rest, and has its place in the stream.
#[derive(Drop)]
pub struct BlockReader {
    stream: StreamRest,
}

impl Model for BlockReader {
    ghost use Rattle.unit_packets.specs.Reading.{Reading};

    ghost Value = { Reading };

    ghost view = { λ r. r.stream };
}

impl BlockReader {
    /// A reader at place 0 to which nothing was loaded. It takes no memory.
    pub fn make(alloc: Global) -> BlockReader
        ensures { result ≡ unread }
    {
        BlockReader {
            stream: StreamRest::make(alloc),
        }
    }

    /// The place of the rest in the stream, in bytes; it stays at the type's end.
    pub fn place(&self) -> u64
        ensures { result ≡ self.now.place }
    {
        self.stream.place()
    }

    /// The bytes loaded and not yet passed.
    pub fn rest(&self) -> &[u8]
        ensures { result.now ≡ self.now.rest }
    {
        self.stream.rest()
    }

    /// Loads the next piece of the stream. The reader is as before where memory runs out.
    pub fn load(&mut self, piece: &[u8]) -> Result<(), OutOfMemory>
        ensures ok { OnOk result (self.new ≡ loaded self.old piece.now) }
        ensures err { OnErr result (self.new ≡ self.old) }
    {
        self.stream.load(piece)
    }

    /// Passes the first `count` bytes of the rest, the length of a block.
    pub fn pass(&mut self, count: usize)
        requires { count ≤ length self.old.rest }
        ensures { self.new ≡ passed self.old count }
    {
        self.stream.pass(count);
    }

    /// Feeds the next piece of the stream, and appends each block that became whole.
    ///
    /// The answer is the fault of the stream so far, unless more bytes may mend it; the blocks
    /// before it are in `out`, and each later call answers it again, appends nothing and keeps
    /// nothing of its piece. Reader and list are as before after OutOfMemory.
    pub fn feed(&mut self, piece: &[u8], out: &mut BlockList) -> Result<(), FeedError>
        // However the bytes were cut into pieces.
        ensures fed { WithMemory result ((fed : List ℕ) → StandsFor self.old fed
            → Feeds fed piece.now self.new out.old.items out.new.items result) }
        ensures again { IsRepeated
            (kept_fault self.old) result ((self.new ≡ self.old) × (out.new.items ≡ out.old.items)) }
        ensures memory { result ≡ Err FeedError.OutOfMemory
            → (self.new ≡ self.old) × (out.new.items ≡ out.old.items) }
    {
        match fault_in(false, self.place(), self.rest()) {
            Some(fault) => return Err(FeedError::Fault(fault)),
            None => {}
        }
        let before = self.rest().len();
        self.load(piece)?;
        let alloc = self.stream.allocator();
        match cut_blocks(alloc, self.rest(), out) {
            Ok(passed) => {
                self.pass(passed);
                answer(fault_in(false, self.place(), self.rest()))
            }
            Err(_) => {
                self.stream.keep(before);
                Err(FeedError::OutOfMemory)
            }
        }
    }

    /// Ends the stream. Where the rest has bytes and no whole block stands at its start, it is a
    /// fault: the one that was kept, or that the block is cut off.
    pub fn finish(&self) -> Result<(), BlockFault>
        ensures kept { result ≡ ended_answer (fault_in true self.now.place self.now.rest) }
        ensures fed { (fed : List ℕ)
            → StandsFor self.now fed → result ≡ ended_answer (ended_fault fed) }
    {
        match fault_in(true, self.place(), self.rest()) {
            None => Ok(()),
            Some(fault) => Err(fault),
        }
    }
}
