//! Packs messages as they come into datagrams of at most 1,400 bytes, a block in each.

ghost use Rattle.std.specs.Prelude.{◌≡◌, ◌+◌, ◌≤◌, ◌<◌, ◌++◌, [], ◌∷◌, length, drop, IfOk, OnOk};
ghost use Rattle.std.specs.Prelude.{OnErr, IsTrue, ◌↔◌};
ghost use Rattle.pitch_fields.specs.Limits.{last_sequence};
ghost use Rattle.pitch_messages.specs.Raw.{IsRaw};
ghost use Rattle.unit_packets.specs.BlockBytes.{header_bytes, block_bytes};
ghost use Rattle.unit_packets.specs.Blocks.{most_messages, StaysWithin};
ghost use Rattle.unit_packets.specs.Packing.{datagram_size, sequence_after, fits_datagram};
ghost use Rattle.unit_packets.specs.Pushing.{next_sequence, HasPacked};
ghost use Rattle.unit_packets.specs.layers.Packings.{unpacked, Pushes, Finishes};
ghost use Rattle.unit_packets.specs.layers.Packings.{GivesPacking};

use crate::header::Header;
use crate::writing::header_bytes;
use pitch_fields::OutOfMemory;
use pitch_messages::{ByteList, List, Raw};
use std::alloc::Global;
use std::marker::Model;
use std::mem;

/// A list of datagrams.
pub type DatagramList = List<ByteList>;

/// The most bytes that a datagram has.
pub const DATAGRAM_SIZE: usize = 1400;

/// Packs messages in their order into datagrams of one block each.
///
/// A message goes into the block that was begun, unless that would then pass 1,400 bytes or 255
/// messages; then the block is given out and a new one begun. A datagram's bytes are written once,
/// where they stay.
#[derive(Drop)]
pub struct Packer {
    unit: u8,
    sequence: u32,
    count: u8,
    bytes: Vec<u8>,
}

impl Model for Packer {
    ghost use Rattle.std.specs.Prelude.{drop};
    ghost use Rattle.pitch_messages.specs.Raw.{raws_of};
    ghost use Rattle.unit_packets.specs.Pushing.{Packing};
    ghost use Rattle.unit_packets.specs.layers.Begun.{IsBegun};

    ghost Value = { Packing };

    ghost view = { λ p. record {
      unit = p.unit;
      sequence = p.sequence;
      begun = raws_of p.count (drop 8 p.bytes.items);
    } };

    ghost invariant = { λ p. IsBegun p.sequence p.count p.bytes.items };
}

// A block of some messages takes one more, which brings it to this size.
#[inline]
fn is_taken(count: u8, size: usize) -> bool
    ensures { IsTrue result ↔ ((0 < count) × ((count < most_messages) × (size ≤ datagram_size))) }
{
    count > 0 && count < 255 && size <= DATAGRAM_SIZE
}

// The bytes of a block that begins with a message; the header is written once the block is full.
fn begun_with(alloc: Global, raw: &[u8]) -> Result<Vec<u8>, OutOfMemory>
    ensures size { IfOk result (λ bytes. length bytes.items ≡ 8 + length raw.now) }
    ensures body { IfOk result (λ bytes. drop 8 bytes.items ≡ raw.now) }
{
    let mut bytes = Vec::with_capacity(alloc, DATAGRAM_SIZE)?;
    bytes.extend_from_slice(&[0; 8])?;
    bytes.extend_from_slice(raw)?;
    Ok(bytes)
}

// Writes a header over the first eight bytes.
fn put_header(bytes: &mut [u8], header: Header)
    requires { 8 ≤ length bytes.old }
    ensures { bytes.new ≡ header_bytes header ++ drop 8 bytes.old }
{
    bytes[..8].copy_from_slice(&header_bytes(header));
}

// The sequence after so many messages.
fn sequence_after(first: u32, count: u8) -> u32
    requires { StaysWithin first count }
    ensures { result ≡ sequence_after first count }
{
    if first == 0 {
        return 0;
    }
    first + count as u32
}

impl Packer {
    /// Packs messages of a unit, the first of which has this sequence. Where it is 0, every block
    /// has sequence 0.
    pub fn make(alloc: Global, unit: u8, first: u32) -> Packer
        ensures new { result ≡ unpacked unit first }
        ensures packed { HasPacked result unit first [] [] }
    {
        Packer {
            unit,
            sequence: first,
            count: 0,
            bytes: Vec::new(alloc),
        }
    }

    /// The sequence that the next message will have, or 0 where messages are unsequenced.
    pub fn next_sequence(&self) -> u32
        ensures { result ≡ next_sequence self.now }
    {
        sequence_after(self.sequence, self.count)
    }

    // The block that was begun has room for the message.
    #[inline]
    fn takes(&self, raw: &[u8]) -> bool
        ensures { IsTrue result ↔ (0 < length self.now.begun)
            × IsTrue (fits_datagram (self.now.begun ++ raw.now ∷ [])) }
    {
        is_taken(self.count, self.bytes.len() + raw.len())
    }

    /// Packs a message. Packer and list are as before after OutOfMemory.
    #[inline]
    pub fn push(&mut self, raw: &Raw, out: &mut DatagramList) -> Result<(), OutOfMemory>
        requires { next_sequence self.old ≤ last_sequence }
        ensures ok { OnOk result (Pushes self.old raw.now self.new out.old.items out.new.items) }
        ensures err { OnErr result ((self.new ≡ self.old) × (out.new.items ≡ out.old.items)) }
    {
        self.push_bytes(raw.bytes(), out)
    }

    /// Packs a message by its bytes, as `push` does.
    #[inline]
    pub fn push_bytes(&mut self, raw: &[u8], out: &mut DatagramList) -> Result<(), OutOfMemory>
        requires raw { IsRaw raw.now }
        requires next { next_sequence self.old ≤ last_sequence }
        ensures ok { OnOk result (Pushes self.old raw.now self.new out.old.items out.new.items) }
        ensures err { OnErr result ((self.new ≡ self.old) × (out.new.items ≡ out.old.items)) }
    {
        if self.takes(raw) {
            self.bytes.extend_from_slice(raw)?;
            self.count += 1;
            return Ok(());
        }
        let begun = begun_with(*self.bytes.allocator(), raw)?;
        self.finish(out)?;
        self.bytes = begun;
        self.count = 1;
        Ok(())
    }

    /// Gives out the block that was begun, if any. Packer and list are as before after OutOfMemory.
    pub fn finish(&mut self, out: &mut DatagramList) -> Result<(), OutOfMemory>
        ensures ok { OnOk result (Finishes self.old self.new out.old.items out.new.items) }
        ensures after { OnOk result (self.new ≡ unpacked self.old.unit (next_sequence self.old)) }
        // With what was given out before it is the packing of all messages that were pushed.
        ensures packing { OnOk result (GivesPacking self.old out.old.items out.new.items) }
        ensures err { OnErr result ((self.new ≡ self.old) × (out.new.items ≡ out.old.items)) }
    {
        if self.count == 0 {
            return Ok(());
        }
        out.reserve(1)?;
        let datagram = self.close();
        out.push(ByteList::of_vec(datagram))?;
        Ok(())
    }

    // Takes the block that was begun, with its header; none is begun then.
    fn close(&mut self) -> Vec<u8>
        requires { 0 < length self.old.begun }
        ensures bytes { result.items ≡ block_bytes
            (record { unit = self.old.unit; sequence = self.old.sequence; raws = self.old.begun }) }
        ensures after { self.new ≡ unpacked self.old.unit (next_sequence self.old) }
    {
        let header = Header {
            length: self.bytes.len() as u16,
            count: self.count,
            unit: self.unit,
            sequence: self.sequence,
        };
        let next = Vec::new(*self.bytes.allocator());
        let mut bytes = mem::replace(&mut self.bytes, next);
        self.sequence = sequence_after(self.sequence, self.count);
        self.count = 0;
        put_header(&mut bytes, header);
        bytes
    }
}
