//! The status of a client: silent, current, or behind.

/// How far a client is.
#[derive(Clone, Copy, PartialEq, Eq)]
pub enum Status {
    /// It was told of no message.
    Silent,
    /// It has every message up to the last one that it was told of.
    Current { n: u32 },
    /// It has every message up to `n`, and was told of `top`.
    Behind { n: u32, top: u32 },
}
