//! Goes through what a stream says: messages, the ends of blocks, and what breaks it.

ghost use Rattle.std.specs.Prelude.{◌≡◌, ◌∷◌, [], true, false, None, Some, Err, is_some, drop};
ghost use Rattle.std.specs.Prelude.{MatchOption};
ghost use Rattle.unit_packets.specs.Cutting.{fault_from};
ghost use Rattle.unit_packets.specs.Judging.{judge};
ghost use Rattle.unit_packets.specs.Held.{StandsFirst};
ghost use Rattle.session_ends.specs.Items.{onward, trouble};
ghost use Rattle.session_ends.specs.layers.Hearing.{reader_items, says, IsThrough};

use crate::closed::{CloseCause, Closed};
use crate::inbox::Heard;
use crate::lent::LentRaw;
use pitch_messages::Raws;
use std::marker::Model;
use unit_packets::{BlockError, BlockReader, BlockView, view_block};

// The place so many bytes further on; it stays at the type's end.
fn onward(place: u64, size: usize) -> u64
    ensures { result ≡ onward place size }
{
    place.saturating_add(size as u64)
}

// What a fault says that more bytes do not mend.
#[inline(always)]
fn trouble<'a>(place: u64, error: BlockError) -> Option<Heard<'a>>
    ensures { MatchOption result (trouble (fault_from false place (Err error)) ≡ [])
        (λ item. trouble (fault_from false place (Err error)) ≡ item ∷ []) }
{
    if error.is_truncated() {
        return None;
    }
    Some(Heard::Broken(Closed {
        cause: CloseCause::Block(error),
        place,
    }))
}

/// What the bytes of a stream say from a place on, one after another, each lent from where it
/// stands. It takes no memory.
#[derive(Drop)]
pub struct Sayings<'a> {
    bytes: &'a [u8],
    // So many bytes are those of the blocks that were begun; there the next one begins, at this
    // place of the stream.
    passed: usize,
    place: u64,
    // What is left of the block that was begun last, unless its end was told.
    inside: bool,
    raws: Raws<'a>,
    message: u64,
    // Why no block follows, once that is known.
    stop: Option<BlockError>,
}

impl<'a> Model for Sayings<'a> {
    ghost use Rattle.session_ends.specs.layers.Hearing.{Saying, IsCut};

    ghost Value = { Saying };

    ghost view = { λ s. record {
      bytes = s.bytes.now;
      passed = s.passed;
      place = s.place;
      inside = s.inside;
      raws = s.raws;
      message = s.message;
      stop = s.stop;
    } };

    ghost invariant = { λ s. IsCut s.bytes.now s.passed s.stop };
}

impl<'a> Sayings<'a> {
    /// What the bytes say that a reader has.
    #[inline(always)]
    pub fn of(reader: &'a BlockReader) -> Sayings<'a>
        ensures says { says result ≡ reader_items reader.now }
        ensures bytes { result.bytes ≡ reader.now.rest }
    {
        let bytes = reader.rest();
        Sayings {
            bytes,
            passed: 0,
            place: reader.place(),
            inside: false,
            raws: Raws::of_block(&bytes[..0], 0),
            message: 0,
            stop: None,
        }
    }

    // What the block says next that was begun.
    #[inline(always)]
    fn next_of_block(&mut self) -> Heard<'a>
        requires { self.old.inside ≡ true }
        ensures says { says self.old ≡ result ∷ says self.new }
        ensures bytes { self.new.bytes ≡ self.old.bytes }
    {
        match self.raws.next_raw() {
            Some(raw) => {
                let place = self.message;
                self.message = onward(place, raw.len());
                Heard::Message {
                    place,
                    raw: LentRaw::of(raw),
                }
            }
            None => {
                self.inside = false;
                Heard::BlockEnd
            }
        }
    }

    // Begins the block that stands next, and tells what it says first.
    #[inline(always)]
    fn begin(&mut self, block: &BlockView<'a>) -> Heard<'a>
        requires shut { self.old.inside ≡ false }
        requires on { self.old.stop ≡ None }
        requires stands { StandsFirst (drop self.old.passed self.old.bytes) block.now }
        ensures says { says self.old ≡ result ∷ says self.new }
        ensures bytes { self.new.bytes ≡ self.old.bytes }
    {
        let place = self.place;
        let size = block.header().length as usize;
        self.passed += size;
        self.place = onward(place, size);
        if block.header().sequence != 0 {
            return Heard::Broken(Closed {
                cause: CloseCause::Sequenced,
                place,
            });
        }
        self.inside = true;
        self.raws = block.raws();
        self.message = onward(place, 8);
        self.next_of_block()
    }

    // What is said where no block follows.
    #[inline(always)]
    fn stop(&mut self, error: BlockError) -> Option<Heard<'a>>
        requires shut { self.old.inside ≡ false }
        requires on { self.old.stop ≡ None }
        requires stands { judge (drop self.old.passed self.old.bytes) ≡ Err error }
        ensures says { MatchOption result (says self.old ≡ []) (λ item. says self.old ≡ item ∷ []) }
        ensures shut { self.new.inside ≡ false }
        ensures stop { self.new.stop ≡ Some error }
        ensures bytes { self.new.bytes ≡ self.old.bytes }
    {
        self.stop = Some(error);
        trouble(self.place, error)
    }

    // What follows the block that was begun last.
    #[inline(always)]
    fn next_block(&mut self) -> Option<Heard<'a>>
        requires { self.old.inside ≡ false }
        ensures says { MatchOption result ((says self.old ≡ []) × (is_some self.new.stop ≡ true))
            (λ item. says self.old ≡ item ∷ says self.new) }
        ensures bytes { self.new.bytes ≡ self.old.bytes }
    {
        if self.stop.is_some() {
            return None;
        }
        match view_block(&self.bytes[self.passed..]) {
            Ok(block) => Some(self.begin(&block)),
            Err(error) => self.stop(error),
        }
    }

    /// What is said next, or None where nothing more is.
    #[inline(always)]
    pub fn next_item(&mut self) -> Option<Heard<'a>>
        ensures says { MatchOption result ((says self.old ≡ []) × (is_some self.new.stop ≡ true))
            (λ item. says self.old ≡ item ∷ says self.new) }
        ensures bytes { self.new.bytes ≡ self.old.bytes }
    {
        if self.inside {
            return Some(self.next_of_block());
        }
        self.next_block()
    }

    /// Goes through what is left, and answers how many bytes the whole blocks have.
    #[inline(always)]
    pub fn finish(&mut self) -> usize
        ensures { IsThrough self.old.bytes result }
    {
        'left: while let Some(_) = self.next_item() {}
        self.passed
    }
}
