//! What hearing an item changed: status, fresh messages, overflows, an image's end.

use pitch_model::Status;

/// What became of an image when Spin Finished came.
#[derive(Clone, Copy, PartialEq, Eq)]
pub enum ImageEnd {
    /// No image ended.
    NoImage,
    /// It replaced the book.
    Taken,
    /// It reached no further than the client, and changed nothing.
    Stale,
    /// It had another number of orders than was promised, and was dropped.
    Bad { promised: u32, got: u64 },
}

/// What an item that was heard has changed.
#[derive(Clone, Copy, PartialEq, Eq)]
pub struct Change {
    pub before: Status,
    pub after: Status,
    /// The messages of the item that were neither known nor held.
    pub fresh: u32,
    /// How often the hold overflowed.
    pub overflows: u32,
    pub image: ImageEnd,
}
