//! Cuts the datagrams of all lines into items, and counts messages by line and unit.

ghost use Rattle.std.specs.Prelude.{◌≡◌, ◌+◌, ◌<◌, ◌≤◌, ◌^◌, ◌∷◌, [], List, ℕ, length, drop, take};
ghost use Rattle.std.specs.Prelude.{OnOk, OnErr, IfOk, IfErr, IfNone, Err, Some, None, slice_get};
ghost use Rattle.std.specs.Prelude.{nat_lt, ◌==◌, ◌&&◌, if◌then◌else◌};
ghost use Rattle.unit_packets.specs.Cutting.{blocks_of, rest_of};
ghost use Rattle.line_arbiter.specs.layers.Delivered.{Delivers, datagram_fault};
ghost use Rattle.line_arbiter.specs.Noted.{Note, HasNoted, line_place, line_count};

use crate::count::{LineCount, counted_more};
use crate::heard::{DatagramFault, Heard, HeardList};
use client_core::item_of_block;
use pitch_fields::OutOfMemory;
use pitch_io::Line;
use std::alloc::Global;
use unit_packets::{BlockView, Blocks, read_block};

/// The number of places: one for each of 256 units, on each of three lines.
const PLACES: usize = 768;

/// What the lines of a feed bring: it cuts a datagram into its blocks, and counts the messages of
/// each unit on each line.
#[derive(Drop)]
pub struct Arbiter {
    counts: [LineCount; PLACES],
}

// Where the counts of a line and a unit stand.
fn place_of(line: Line, unit: u8) -> usize
    ensures place { result ≡ line_place line + unit }
    ensures within { result < 768 }
{
    let place = match line {
        Line::A => 0,
        Line::B => 256,
        Line::Gap => 512,
    };
    place + usize::from(unit)
}

impl Arbiter {
    /// An arbiter that has counted nothing. It takes no memory.
    pub fn make() -> Arbiter
        ensures { HasNoted result [] }
    {
        Arbiter {
            counts: [LineCount {
                messages: 0,
                fresh: 0,
            }; PLACES],
        }
    }

    /// Counts messages of a unit that came on a line, and how many of them were fresh: none of the
    /// same sequence came before. A count stops at the greatest number of 64 bits. It takes no
    /// memory.
    pub fn note(&mut self, line: Line, unit: u8, messages: u32, fresh: u32)
        // Of everything that was noted before: this was noted too.
        ensures { (notes : List Note) → HasNoted self.old notes → HasNoted self.new
            ((record { line = line; unit = unit; messages = messages; fresh = fresh }) ∷ notes) }
    {
        let place = place_of(line, unit);
        let count = self.counts[place];
        self.counts[place] = LineCount {
            messages: counted_more(count.messages, messages),
            fresh: counted_more(count.fresh, fresh),
        };
    }

    /// How many messages of a unit came on a line, and how many of them were fresh. It takes no
    /// memory.
    pub fn counts(&self, line: Line, unit: u8) -> LineCount
        // Of everything that was noted: the sums for this line and unit.
        ensures { (notes : List Note)
            → HasNoted self.now notes → result ≡ line_count line unit notes }
    {
        self.counts[place_of(line, unit)]
    }

    /// Appends an item for each whole block of a datagram, before the first fault, with the block's
    /// unit ("Sequenced Unit Header"). What is fresh in them a client tells, so nothing is counted.
    ///
    /// The answer is the fault, with its place, where bytes follow that are no block; a datagram of
    /// no bytes is cut off at 0. The list is as before after OutOfMemory.
    pub fn deliver(
        &mut self,
        alloc: Global,
        _line: Line,
        datagram: &[u8],
        out: &mut HeardList,
    ) -> Result<Option<DatagramFault>, OutOfMemory>
        requires { length datagram.now < 2 ^ 32 }
        // An item of each block was appended, in their order.
        ensures heard { OnOk result
            (Delivers (blocks_of datagram.now) out.old.items out.new.items) }
        ensures fault { IfOk result (λ fault. fault ≡ datagram_fault datagram.now) }
        ensures err { OnErr result (out.new.items ≡ out.old.items) }
        ensures same { self.new ≡ self.old }
    {
        let before = out.len();
        match hear_blocks(alloc, datagram, out) {
            Ok(rest) => Ok(fault_of(datagram, rest)),
            Err(error) => {
                out.truncate(before);
                Err(error)
            }
        }
    }
}

// The fault of the bytes that follow a datagram's blocks.
fn fault_of(datagram: &[u8], rest: &[u8]) -> Option<DatagramFault>
    requires follows { rest.now ≡ rest_of datagram.now }
    requires small { length datagram.now < 2 ^ 32 }
    ensures { result ≡ datagram_fault datagram.now }
{
    if rest.is_empty() && !datagram.is_empty() {
        return None;
    }
    match read_block(rest) {
        Ok(_) => None,
        Err(error) => Some(DatagramFault {
            place: (datagram.len() - rest.len()) as u32,
            error,
        }),
    }
}

// Appends the item of a block.
fn push_heard(alloc: Global, view: &BlockView<'_>, out: &mut HeardList) -> Result<(), OutOfMemory>
    ensures ok { OnOk result (Delivers (view.now ∷ []) out.old.items out.new.items) }
    ensures err { OnErr result (out.new.items ≡ out.old.items) }
{
    let header = view.header();
    let item = item_of_block(alloc, header.sequence, view.raws())?;
    out.push(Heard {
        unit: header.unit,
        item,
    })
}

// Appends the items of the blocks at the start of the bytes. Answers the bytes that follow them.
// After OutOfMemory some may have been appended.
fn hear_blocks<'a>(
    alloc: Global,
    bytes: &'a [u8],
    out: &mut HeardList,
) -> Result<&'a [u8], OutOfMemory>
    ensures heard { OnOk result (Delivers (blocks_of bytes.now) out.old.items out.new.items) }
    ensures rest { IfOk result (λ rest. rest.now ≡ rest_of bytes.now) }
    ensures kept { take (length out.old.items) out.new.items ≡ out.old.items }
{
    let mut blocks = Blocks::of_bytes(bytes);
    'next: while let Some(block) = blocks.next_block() {
        push_heard(alloc, &block, out)?;
    }
    Ok(blocks.rest())
}
