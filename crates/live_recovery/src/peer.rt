//! Whom a live client asks.

use live_units::Session;

/// A peer, at an address of its own: the session of a unit that it serves.
#[derive(Clone, Copy, PartialEq, Eq)]
pub struct Peer {
    pub unit: u8,
    pub session: Session,
}
