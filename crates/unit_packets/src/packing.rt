//! Packs the messages of a whole list in one call.

ghost use Rattle.std.specs.Prelude.{◌≡◌, ◌++◌, OnOk, OnErr, length};
ghost use Rattle.unit_packets.specs.Blocks.{StaysWithin};
ghost use Rattle.unit_packets.specs.Packing.{IsPacking, packed, bytes_in};

use crate::packer::{DatagramList, Packer};
use pitch_fields::OutOfMemory;
use pitch_messages::Raws;
use std::alloc::Global;

/// Appends the packed datagrams of messages, the first of which has this sequence; where it is 0,
/// every block has sequence 0. The list is as before after OutOfMemory.
pub fn pack(
    alloc: Global,
    unit: u8,
    first: u32,
    raws: Raws<'_>,
    out: &mut DatagramList,
) -> Result<(), OutOfMemory>
    requires { StaysWithin first (length raws) }
    ensures ok { OnOk result (bytes_in out.new.items
        ≡ bytes_in out.old.items ++ packed unit first raws.entry) }
    // It is the one packing of them.
    ensures packing { OnOk result (IsPacking unit first raws.entry (packed unit first raws.entry)) }
    ensures err { OnErr result (out.new.items ≡ out.old.items) }
{
    let before = out.len();
    let mut raws = raws;
    let mut packer = Packer::make(alloc, unit, first);
    'messages: while let Some(raw) = raws.next_raw() {
        match packer.push_bytes(raw, out) {
            Ok(()) => {}
            Err(error) => {
                out.truncate(before);
                return Err(error);
            }
        }
    }
    match packer.finish(out) {
        Ok(()) => Ok(()),
        Err(error) => {
            out.truncate(before);
            Err(error)
        }
    }
}
