//! Whose turn it is.

/// Whose turn it is.
#[derive(Clone, Copy, PartialEq, Eq)]
pub enum Place {
    /// None's: the wait is due.
    Wait,
    /// This line's, which has given so many datagrams one after another.
    Line(u16, u16),
    /// This peer's, which has given so many pieces one after another.
    Peer(u16, u16),
    /// This peer's, and what waits for it is put.
    Put(u16),
}
