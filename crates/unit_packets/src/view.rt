//! Blocks that are lent, read where they stand with no copy of their messages.

ghost use Rattle.std.specs.Prelude.{◌≡◌, length, IfOk, IfErr, Err};
ghost use Rattle.unit_packets.specs.Blocks.{StaysWithin};
ghost use Rattle.unit_packets.specs.Judging.{judge};
ghost use Rattle.unit_packets.specs.Lending.{header_for};
ghost use Rattle.unit_packets.specs.Held.{StandsFirst};

use crate::block::Block;
use crate::header::{BlockError, Header};
use crate::judge::read_block;
use pitch_fields::OutOfMemory;
use pitch_messages::{RawList, Raws};
use std::alloc::Global;
use std::marker::Model;

/// A whole block, lent from the bytes in which it stands.
#[derive(Drop)]
pub struct BlockView<'a> {
    header: Header,
    raws: Raws<'a>,
}

impl<'a> Model for BlockView<'a> {
    ghost use Rattle.std.specs.Prelude.{◌≡◌, length};
    ghost use Rattle.unit_packets.specs.Blocks.{Block, StaysWithin};
    ghost use Rattle.unit_packets.specs.Held.{block_of, IsHeld};

    ghost Value = { Block };

    ghost view = { λ b. block_of b.header b.raws };

    ghost invariant = { λ b. IsHeld b.header b.raws };
}

impl<'a> BlockView<'a> {
    /// A block that owns its messages, lent. It takes no memory.
    pub fn of_block(block: &'a Block) -> BlockView<'a>
        ensures { result ≡ block.now }
    {
        BlockView {
            header: block.header,
            raws: block.raws.raws(),
        }
    }

    /// The block's header.
    #[inline(always)]
    pub fn header(&self) -> Header
        ensures { result ≡ header_for self.now }
    {
        self.header
    }

    /// The block's messages in their order.
    #[inline(always)]
    pub fn raws(&self) -> Raws<'a>
        ensures raws { result ≡ self.now.raws }
        ensures within { StaysWithin self.now.sequence (length self.now.raws) }
    {
        self.raws.copy()
    }

    /// A block of its own, copied in one go.
    pub fn to_block(&self, alloc: Global) -> Result<Block, OutOfMemory>
        ensures { IfOk result (λ block. block ≡ self.now) }
    {
        Ok(Block {
            header: self.header(),
            raws: RawList::of_raws(alloc, self.raws())?,
        })
    }
}

/// The block at the start of the bytes, or the first fault that stands there, as `read_block`
/// judges it. It takes no memory.
pub fn view_block(bytes: &[u8]) -> Result<BlockView<'_>, BlockError>
    ensures found { IfOk result (λ block. StandsFirst bytes.now block) }
    ensures fault { IfErr result (λ error. judge bytes.now ≡ Err error) }
{
    let header = read_block(bytes)?;
    let raws = Raws::of_block(&bytes[8..header.length as usize], header.count as usize);
    Ok(BlockView { header, raws })
}
