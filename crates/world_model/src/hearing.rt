//! What the client's end hears of datagrams.

ghost use Rattle.std.specs.Prelude.{◌≡◌, ◌||◌, ◌∷◌, [], IfOk};
ghost use Rattle.std.specs.List.{flat_map};
ghost use Rattle.unit_packets.specs.Cutting.{blocks_of};
ghost use Rattle.heard_items.specs.Datagrams.{block_messages};
ghost use Rattle.unit_packets.specs.Packing.{bytes_in};
ghost use Rattle.world_model.specs.layers.Hearing.{HearsBlocks};

use line_arbiter::Arbiter;
use pitch_fields::OutOfMemory;
use pitch_io::Line;
use pitch_messages::ByteList;
use sending_end::SendingEnd;
use unit_packets::{BlockView, Blocks};

// How many messages of a block count: none of an unsequenced one.
fn messages_of(block: &BlockView<'_>) -> u32
    ensures { result ≡ block_messages block.now }
{
    let header = block.header();
    if header.sequence == 0 {
        0
    } else {
        u32::from(header.count)
    }
}

// The client's end hears a block that comes on a line. Answers whether the hold overflowed.
fn hear_block(
    unit: u8,
    line: Line,
    client: &mut SendingEnd,
    arbiter: &mut Arbiter,
    block: &BlockView<'_>,
) -> Result<bool, OutOfMemory>
    ensures { IfOk result (λ overflow. HearsBlocks
        unit line client.old client.new arbiter.old arbiter.new (block.now ∷ []) overflow) }
{
    let change = client.hear_block(block)?;
    arbiter.note(line, unit, messages_of(block), change.fresh);
    Ok(change.overflows > 0)
}

/// The client's end hears the blocks of a datagram that comes on a line. Answers whether the hold
/// overflowed.
pub(crate) fn hear_datagram(
    unit: u8,
    line: Line,
    client: &mut SendingEnd,
    arbiter: &mut Arbiter,
    datagram: &[u8],
) -> Result<bool, OutOfMemory>
    ensures { IfOk result (λ overflow. HearsBlocks
        unit line client.old client.new arbiter.old arbiter.new (blocks_of datagram.now) overflow) }
{
    let mut overflow = false;
    'pieces: for block in Blocks::of_bytes(datagram) {
        let marked = hear_block(unit, line, client, arbiter, &block)?;
        overflow = either(overflow, marked);
    }
    Ok(overflow)
}

/// The client's end hears datagrams that come on a line, one after another. Answers whether the
/// hold overflowed.
pub(crate) fn hear_all(
    unit: u8,
    line: Line,
    client: &mut SendingEnd,
    arbiter: &mut Arbiter,
    datagrams: &[ByteList],
) -> Result<bool, OutOfMemory>
    ensures { IfOk result (λ overflow. HearsBlocks unit line client.old
        client.new arbiter.old arbiter.new (flat_map blocks_of (bytes_in datagrams.now)) overflow) }
{
    let mut overflow = false;
    'lines: for datagram in datagrams {
        let marked = hear_datagram(unit, line, client, arbiter, datagram.bytes())?;
        overflow = either(overflow, marked);
    }
    Ok(overflow)
}

fn either(one: bool, other: bool) -> bool
    ensures { result ≡ (one || other) }
{
    one || other
}
