//! The two asks of a client: a gap request, or a spin request.

/// What a client asks for at a tick.
#[derive(Clone, Copy, PartialEq, Eq)]
pub enum Ask {
    /// That the Gap Request Proxy sends this many messages again, from this sequence on.
    Gap { first: u32, count: u16 },
    /// That the Spin Server sends an image through this sequence.
    Spin { sequence: u32 },
}
