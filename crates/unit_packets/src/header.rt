//! The Sequenced Unit Header, and what can be wrong with a block that it begins.

ghost use Rattle.std.specs.Prelude.{◌≡◌};
ghost use Rattle.unit_packets.specs.Causes.{inner_place};
ghost use Rattle.unit_packets.specs.Cutting.{is_truncated};

use std::error::Error;
use std::fmt;

/// The header of a block: its length in bytes with the header, the number of its messages, its
/// unit, and the sequence of its first message (0 where the block is unsequenced). Each number is
/// little endian.
///
/// Source: Cboe US Equities Multicast PITCH specification, "Sequenced Unit Header".
#[derive(Clone, Copy, Debug, PartialEq, Eq)]
pub struct Header {
    pub length: u16,
    pub count: u8,
    pub unit: u8,
    pub sequence: u32,
}

/// Why some bytes do not begin with a block. Places count from the first of them.
#[derive(Clone, Copy, Debug, PartialEq, Eq)]
pub enum BlockError {
    /// Fewer bytes are there than the header, or the block, has.
    Truncated { has: u32, needs: u32 },
    /// The stated length is below the eight bytes of a header.
    LengthBelowHeader { length: u16 },
    /// The last message would have a sequence that no message can have.
    SequencePast { sequence: u32, count: u8 },
    /// A message of fewer than two bytes.
    TinyMessage { place: u32, length: u8 },
    /// A message that is not there, or passes the block's end.
    MessageOverrun { place: u32 },
    /// Bytes after the last message.
    Spare { place: u32 },
}

impl BlockError {
    /// The block is cut off: more bytes may complete it.
    pub fn is_truncated(&self) -> bool
        ensures { result ≡ is_truncated self.now }
    {
        matches!(*self, BlockError::Truncated { .. })
    }

    /// The place inside the block, where the error has one; else 0.
    pub fn inner_place(&self) -> u32
        ensures { result ≡ inner_place self.now }
    {
        match *self {
            BlockError::TinyMessage { place, length: _ } => place,
            BlockError::MessageOverrun { place } => place,
            BlockError::Spare { place } => place,
            _ => 0,
        }
    }
}

/// The cause in words, as `truncated, has 5 of 8`.
impl fmt::Display for BlockError {
    ghost use Rattle.std.specs.Prelude.{Some};
    ghost use Rattle.unit_packets.specs.Causes.{block_cause_text};

    ghost output = { λ error. Some (block_cause_text error) };

    fn fmt<W: fmt::Write>(&self, f: &mut fmt::Formatter<W>) -> fmt::Result {
        match *self {
            BlockError::Truncated { has, needs } => write!(f, "truncated, has {has} of {needs}"),
            BlockError::LengthBelowHeader { length } => write!(f, "length {length} below header"),
            BlockError::SequencePast { sequence, count } => {
                write!(f, "sequence {sequence} count {count} past the last")
            }
            BlockError::TinyMessage { place: _, length } => {
                write!(f, "tiny message of length {length}")
            }
            BlockError::MessageOverrun { place: _ } => write!(f, "message overrun"),
            BlockError::Spare { place: _ } => write!(f, "spare bytes"),
        }
    }
}

impl Error for BlockError {}

/// A fault in a stream of blocks: the place of the faulty block in the stream, and what is wrong
/// with it.
#[derive(Clone, Copy, Debug, PartialEq, Eq)]
pub struct BlockFault {
    pub place: u64,
    pub error: BlockError,
}

/// The fault in words, as `byte 22: tiny message of length 1`: the place is the block's and the
/// inner one together.
impl fmt::Display for BlockFault {
    ghost use Rattle.std.specs.Prelude.{Some};
    ghost use Rattle.unit_packets.specs.Causes.{fault_text};

    ghost output = { λ fault. Some (fault_text fault) };

    fn fmt<W: fmt::Write>(&self, f: &mut fmt::Formatter<W>) -> fmt::Result {
        let place = self
            .place
            .saturating_add(u64::from(self.error.inner_place()));
        let error = self.error;
        write!(f, "byte {place}: {error}")
    }
}

impl Error for BlockFault {}
