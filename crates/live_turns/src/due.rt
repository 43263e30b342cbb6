//! The call that is due.

/// The call of a net that a live client makes next.
#[derive(Clone, Copy, PartialEq, Eq)]
pub enum Due {
    /// It waits. Set where more may have been left on a line or in a connection.
    Wait(bool),
    /// It asks this line for a datagram.
    Receive(u16),
    /// It begins a connection with this peer.
    Open(u16),
    /// It takes bytes of this peer's connection.
    Take(u16),
    /// It puts the first bytes that wait for this peer.
    Put(u16),
    /// It closes this peer's connection, to which its own link is shut.
    Close(u16),
}
