//! The causes that close an end of a session, and the place in its stream.

use unit_packets::BlockError;

/// Why an end of a session closed.
#[derive(Clone, Copy, PartialEq, Eq)]
pub enum CloseCause {
    /// Its stream has a fault that more bytes do not mend.
    Block(BlockError),
    /// A block came with a sequence other than 0 ("Sequenced Unit Header": session traffic has
    /// none).
    Sequenced,
    /// A request came before an accepted login.
    NotLoggedIn,
    /// A message of a type that the end reads was shorter than its type.
    Short,
    /// A login was refused, with this status ("Login Response Message").
    Refused { status: u8 },
    /// No byte came for five ticks in a row; the number is this project's own.
    Silent,
    /// A feeding or a tick of the end answered OutOfMemory.
    Memory,
}

/// Why an end closed, and where.
#[derive(Clone, Copy, PartialEq, Eq)]
pub struct Closed {
    pub cause: CloseCause,
    /// The byte of its stream at which the block begins (Block, Sequenced) or the message
    /// (NotLoggedIn, Short, Refused), or how many bytes were fed (Silent, Memory). It stays at the
    /// end of its type.
    pub place: u64,
}
