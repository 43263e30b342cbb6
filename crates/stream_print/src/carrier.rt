//! How the blocks of a stream come: back to back, or in the datagrams of a capture.

/// What carries the blocks of a stream.
#[derive(Clone, Copy, PartialEq, Eq)]
pub enum Carrier {
    /// Nothing does: the blocks stand back to back.
    Bare,
    /// A classic capture file: the blocks stand in the UDP datagrams of its packets, or in those to
    /// one destination port, where a port is given.
    Capture { port: Option<u16> },
}
