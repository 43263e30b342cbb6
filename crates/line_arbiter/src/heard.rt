//! What comes of a datagram: an item for each block, and the fault behind them.

use heard_items::Item;
use pitch_messages::List;
use unit_packets::BlockError;

/// The item of a block of a datagram, and the block's unit.
#[derive(Drop)]
pub struct Heard {
    pub unit: u8,
    pub item: Item,
}

/// What a datagram says, block by block.
pub type HeardList = List<Heard>;

/// A place of a datagram, in bytes from its start, and why no block stands there.
#[derive(Clone, Copy, PartialEq, Eq)]
pub struct DatagramFault {
    pub place: u32,
    pub error: BlockError,
}
