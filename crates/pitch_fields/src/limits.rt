//! The last sequence of a unit, the most messages of a hold, and the most bytes of a text.

/// The last sequence that a message can have: the next one still fits into four bytes.
pub const LAST_SEQUENCE: u32 = 4294967294;

/// The most messages that a client may hold of those that came too early, and that a proxy keeps.
pub const MOST_HELD: u32 = 65_536;

/// The most bytes that a text of commands, or a schedule, can have.
pub const TEXT_LIMIT: usize = 67_108_864;
