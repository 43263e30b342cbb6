//! Datagrams that are laid one behind another, as a stream has them.

ghost use Rattle.std.specs.Prelude.{◌≡◌, ◌+◌, ◌≤◌, ◌++◌, length, OnOk, OnErr, IsTrue, IsFalse};
ghost use Rattle.std.specs.List.{concat};
ghost use Rattle.unit_packets.specs.BlockBytes.{block_bytes};
ghost use Rattle.unit_packets.specs.Blocks.{StaysWithin};
ghost use Rattle.unit_packets.specs.Packing.{FitsDatagram, bytes_in, packed};

use crate::header::Header;
use crate::packer::{DATAGRAM_SIZE, DatagramList};
use crate::packing::pack;
use crate::writing::header_bytes;
use pitch_fields::OutOfMemory;
use pitch_messages::{ByteList, Raws};
use std::alloc::Global;

// Whether messages go into one datagram.
fn is_one_datagram(raws: &Raws<'_>) -> bool
    ensures { IsTrue result → FitsDatagram raws.now }
{
    raws.len() <= 255 && raws.joined().len() <= DATAGRAM_SIZE - 8
}

// Appends the block of messages that go into one datagram.
#[tactic(auto, unfolding(crate::specs::BlockBytes::block_bytes))]
fn append_block(
    unit: u8,
    sequence: u32,
    raws: &Raws<'_>,
    out: &mut Vec<u8>,
) -> Result<(), OutOfMemory>
    requires { FitsDatagram raws.now }
    ensures ok { OnOk result (out.new.items ≡ out.old.items
        ++ block_bytes (record { unit = unit; sequence = sequence; raws = raws.now })) }
    ensures err { OnErr result (out.new.items ≡ out.old.items) }
{
    let body = raws.joined();
    let size = 8 + body.len();
    let header = header_bytes(Header {
        length: size as u16,
        count: raws.len() as u8,
        unit,
        sequence,
    });
    out.reserve(size)?;
    out.extend_from_slice(&header)?;
    out.extend_from_slice(body)?;
    Ok(())
}

// Appends bytes.
fn append_bytes(bytes: &[u8], out: &mut Vec<u8>) -> Result<(), OutOfMemory>
    ensures ok { OnOk result (out.new.items ≡ out.old.items ++ bytes.now) }
    ensures err { OnErr result (out.new.items ≡ out.old.items) }
{
    out.reserve(bytes.len())?;
    out.extend_from_slice(bytes)?;
    Ok(())
}

/// Appends the bytes of datagrams, one behind another. They are as before after OutOfMemory.
pub fn append_datagrams(datagrams: &[ByteList], out: &mut Vec<u8>) -> Result<(), OutOfMemory>
    ensures ok { OnOk result (out.new.items ≡ out.old.items ++ concat (bytes_in datagrams.now)) }
    ensures err { OnErr result (out.new.items ≡ out.old.items) }
{
    let before = out.len();
    'datagrams: for datagram in datagrams {
        match append_bytes(datagram.bytes(), out) {
            Ok(()) => {}
            Err(error) => {
                out.truncate(before);
                return Err(error);
            }
        }
    }
    Ok(())
}

/// Appends the packed datagrams of messages, the first of which has this sequence, one behind
/// another. The bytes are as before after OutOfMemory.
pub fn append_packed(
    alloc: Global,
    unit: u8,
    first: u32,
    raws: Raws<'_>,
    out: &mut Vec<u8>,
) -> Result<(), OutOfMemory>
    requires { StaysWithin first (length raws) }
    ensures ok { OnOk result
        (out.new.items ≡ out.old.items ++ concat (packed unit first raws.entry)) }
    ensures err { OnErr result (out.new.items ≡ out.old.items) }
{
    if raws.len() == 0 {
        return Ok(());
    }
    if is_one_datagram(&raws) {
        return append_block(unit, first, &raws, out);
    }
    let mut datagrams = DatagramList::make(alloc);
    pack(alloc, unit, first, raws, &mut datagrams)?;
    append_datagrams(datagrams.as_slice(), out)
}
