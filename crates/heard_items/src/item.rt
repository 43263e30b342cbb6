//! The items that a client hears, from blocks on the lines and from both its sessions.

ghost use Rattle.heard_items.specs.Changes.{IsItem, IsItemOf};

use pitch_messages::RawList;
use unit_packets::Block;

/// What one unit's client hears.
#[derive(Drop)]
pub enum Item {
    /// Messages with rising sequence.
    Messages {
        first: u32,
        raws: RawList,
    },
    /// A heartbeat: the sequence of the next message.
    Next {
        next: u32,
    },
    /// An unsequenced block.
    Nothing,
    /// The Gap Request Proxy accepted the login.
    GrpUp,
    /// The connection to the Gap Request Proxy ended.
    GrpDown,
    /// A Gap Response.
    GapReply {
        sequence: u32,
        count: u16,
        status: u8,
    },
    /// The Spin Server accepted the login.
    SpinUp,
    /// The connection to the Spin Server ended.
    SpinDown,
    /// A Spin Image Available.
    Advertised {
        sequence: u32,
    },
    /// A Spin Response.
    SpinReply {
        sequence: u32,
        orders: u32,
        status: u8,
    },
    /// Messages of an image.
    ImageMessages {
        raws: RawList,
    },
    /// A Spin Finished.
    SpinFinished {
        sequence: u32,
    },
}

impl Item {
    /// The item of a block: its messages, which are moved; where it has none, what a heartbeat
    /// tells; nothing, where it is unsequenced.
    ///
    /// Standard: "Sequenced Unit Header", "Heartbeat Messages".
    pub fn of_block(block: Block) -> Item
        ensures item { IsItemOf block result }
        ensures fits { IsItem result }
    {
        let Block { header, raws } = block;
        if header.sequence == 0 {
            return Item::Nothing;
        }
        if header.count == 0 {
            return Item::Next {
                next: header.sequence,
            };
        }
        Item::Messages {
            first: header.sequence,
            raws,
        }
    }
}
