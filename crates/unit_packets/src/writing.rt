//! Writes the blocks that need no packer: heartbeats, and single session messages.

ghost use Rattle.std.specs.Prelude.{◌≡◌, ◌++◌, OnOk, OnErr};
ghost use Rattle.unit_packets.specs.Blocks.{IsBlock};
ghost use Rattle.unit_packets.specs.BlockBytes.{header_bytes, block_bytes, heartbeat_block};
ghost use Rattle.unit_packets.specs.BlockBytes.{session_block};

use crate::header::Header;
use pitch_fields::OutOfMemory;
use pitch_messages::Raw;

// The eight bytes of a header.
pub(crate) fn header_bytes(header: Header) -> [u8; 8]
    ensures { result ≡ header_bytes header }
{
    let [length, more_length] = header.length.to_le_bytes();
    let [first, second, third, fourth] = header.sequence.to_le_bytes();
    [
        length,
        more_length,
        header.count,
        header.unit,
        first,
        second,
        third,
        fourth,
    ]
}

/// The heartbeat of a unit: a header that says which sequence the next sequenced message will have,
/// or 0 for nothing.
pub fn heartbeat(unit: u8, next: u32) -> [u8; 8]
    ensures bytes { result ≡ block_bytes (heartbeat_block unit next) }
    ensures block { IsBlock result (heartbeat_block unit next) }
{
    header_bytes(Header {
        length: 8,
        count: 0,
        unit,
        sequence: next,
    })
}

/// Appends the unsequenced block of one session message. The bytes are as before after OutOfMemory.
pub fn put_session(unit: u8, raw: &Raw, out: &mut Vec<u8>) -> Result<(), OutOfMemory>
    ensures ok { OnOk result (out.new.items
        ≡ out.old.items ++ block_bytes (session_block unit raw.now)) }
    ensures block { IsBlock (block_bytes (session_block unit raw.now))
        (session_block unit raw.now) }
    ensures err { OnErr result (out.new.items ≡ out.old.items) }
{
    let bytes = raw.bytes();
    let header = header_bytes(Header {
        length: 8 + bytes.len() as u16,
        count: 1,
        unit,
        sequence: 0,
    });
    out.reserve(8 + bytes.len())?;
    out.extend_from_slice(&header)?;
    out.extend_from_slice(bytes)?;
    Ok(())
}
