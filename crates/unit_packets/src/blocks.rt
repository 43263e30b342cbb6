//! The whole blocks at the start of some bytes.

ghost use Rattle.std.specs.Prelude.{◌≡◌, drop, MatchOption, IfSome};
ghost use Rattle.std.specs.Iterator.{YieldsFirst, item_count};
ghost use Rattle.unit_packets.specs.Cutting.{blocks_of, rest_of};
ghost use Rattle.unit_packets.specs.Lending.{header_for};
ghost use Rattle.unit_packets.specs.Held.{StandsFirst};

use crate::view::{BlockView, view_block};
use std::marker::Model;

/// The whole blocks at the start of some bytes, one after another, lent. What follows the last of
/// them stays, as the rest.
#[derive(Drop)]
pub struct Blocks<'a> {
    rest: &'a [u8],
}

impl<'a> Model for Blocks<'a> {
    ghost use Rattle.std.specs.Prelude.{ℕ, List};

    ghost Value = { List ℕ };

    ghost view = { λ b. b.rest.now };
}

impl<'a> Blocks<'a> {
    /// The blocks of these bytes. It takes no memory.
    #[inline]
    pub fn of_bytes(bytes: &'a [u8]) -> Blocks<'a>
        ensures { result ≡ bytes.now }
    {
        Blocks { rest: bytes }
    }

    /// The bytes after the blocks that were taken.
    #[inline]
    pub fn rest(&self) -> &'a [u8]
        ensures { result.now ≡ self.now }
    {
        self.rest
    }

    /// The next block, or None where none follows: then the rest begins with none.
    #[inline(always)]
    pub fn next_block(&mut self) -> Option<BlockView<'a>>
        ensures blocks { YieldsFirst blocks_of self.old result self.new }
        ensures stands { IfSome result (λ block. StandsFirst self.old block
            × (self.new ≡ drop (header_for block).length self.old)) }
        ensures rest { MatchOption
            result (self.new ≡ rest_of self.old) (λ _. rest_of self.new ≡ rest_of self.old) }
    {
        match view_block(self.rest) {
            Ok(block) => {
                let (_, rest) = self.rest.split_at(usize::from(block.header().length));
                self.rest = rest;
                Some(block)
            }
            Err(_) => None,
        }
    }
}

impl<'a> Iterator for Blocks<'a> {
    type Item = BlockView<'a>;

    ghost next_gives = { YieldsFirst blocks_of };

    ghost remaining = { item_count blocks_of };

    #[inline(always)]
    fn next(&mut self) -> Option<BlockView<'a>> {
        self.next_block()
    }
}
