//! The forms of the program's words.

/// What the program is asked to do, with its numbers.
#[derive(Clone, Copy, PartialEq, Eq)]
pub enum Form {
    /// Read a stream of blocks, and print it as it comes.
    Stream {
        /// What carries the blocks.
        carried: Carried,
        /// What is printed of them.
        form: StreamWords,
    },
    /// Read a whole text, and write what it makes.
    Text(TextWords),
    /// `storm --number S --units N --steps M [--workers K]`: make a schedule and replay it, and
    /// write where its units ended.
    Storm {
        /// What the storm is made from.
        number: u64,
        /// How many units it has: 1 to 16.
        units: u8,
        /// How many steps each unit takes: 1 to 10,000.
        steps: u32,
        /// In how many pieces of work at most its units run beside one another: 1 to 64.
        workers: u8,
    },
    /// `drill --number S --units N --count C`: run live threads, and write where each unit ended.
    Drill {
        /// What the drill is made from.
        number: u64,
        /// How many units it has: 1 to 16.
        units: u8,
        /// How many commands each unit has: 1 to 100,000.
        count: u32,
    },
    /// `demo --number S --count C`: run both ends of unit 1 over a net, and write where it ended.
    Demo {
        /// What the demo is made from.
        number: u64,
        /// How many messages its venue accepts: 1 to 1,000.
        count: u32,
    },
    /// `audit`: read a log and a printed report, and say whether they agree.
    Audit,
}

/// What carries the blocks of a stream.
#[derive(Clone, Copy, PartialEq, Eq)]
pub enum Carried {
    /// Nothing does: they stand back to back.
    Bare,
    /// `--pcap [--port P]`: a capture does, in whose datagrams they stand.
    Capture {
        /// The destination port of the datagrams that are read, where it is not any.
        port: Option<u16>,
    },
}

/// What is printed of a stream of blocks.
#[derive(Clone, Copy, PartialEq, Eq)]
pub enum StreamWords {
    /// `follow [--hold H]`, also with `--pcap [--port P]`: a line for each block, and the books of
    /// all units, with room for `hold` messages beyond each gap.
    Follow {
        /// How many messages a unit's hold has room for: 1 to 65,536.
        hold: u32,
    },
    /// `show`: the blocks and their messages.
    Show,
    /// `relay [--hold H]`: of a merged stream of line blocks and Spin Server blocks the datagrams
    /// of a relay for each unit.
    Relay {
        /// How many messages a unit's hold has room for: 1 to 65,536.
        hold: u32,
    },
    /// `quotes [--hold H]`: of a stream that is read as `follow` does a line wherever the best
    /// price of a symbol on a side, or its shares, became another.
    Quotes {
        /// How many messages a unit's hold has room for: 1 to 65,536.
        hold: u32,
    },
}

/// What is made of a whole text.
#[derive(Clone, Copy, PartialEq, Eq)]
pub enum TextWords {
    /// `pack --unit U`: of venue commands their datagrams.
    Pack {
        /// The unit of the datagrams: 1 to 255.
        unit: u8,
    },
    /// `replay [--workers K]`: of a schedule what its lines do.
    Replay {
        /// In how many pieces of work at most its units run beside one another: 1 to 64.
        workers: u8,
    },
}
