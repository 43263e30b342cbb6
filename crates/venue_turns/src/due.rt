//! The call that is due.

/// The call of its net that a venue makes next.
#[derive(Clone, Copy, PartialEq, Eq)]
pub enum Due {
    /// It waits. Set where more may have been left in the input or in a connection.
    Wait(bool),
    /// It reads its input.
    Read,
    /// It lets a client in at this place.
    Accept(u16),
    /// It takes bytes of the connection at this place.
    Take(u16),
    /// It puts the first bytes that wait for the client at this place.
    Put(u16),
    /// It closes the connection at this place.
    Close(u16),
}
