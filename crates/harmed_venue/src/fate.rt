//! How a datagram goes out.

/// How a datagram goes out on its line.
#[derive(Clone, Copy)]
pub enum Fate {
    /// It doesn't.
    Lost,
    /// It is held back, and goes out behind the next one.
    Late,
    /// Two times.
    Twice,
    /// As it was sent.
    Once,
}
