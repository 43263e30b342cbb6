//! How the connection at a place is.

ghost use Rattle.std.specs.Prelude.{◌≡◌, ℕ, ◌∷◌, List, Bool, true};
ghost use Rattle.live_net.specs.declared.live.PeerPut.TheVariants as put;
ghost use Rattle.live_net.specs.declared.live.WaitEnd.TheVariants as wait_end;
ghost use Rattle.venue_net.specs.VenueCalls.{VenueCall, Put, Wait};
ghost use Rattle.venue_turns.specs.Standing.{stands, is_stuck};
ghost use Rattle.venue_turns.specs.Turning.{Knows};

/// A connection that had no room for so many seconds is closed.
pub const LONGEST_STALL: u8 = 5;

/// How the connection at a place is.
#[derive(Clone, Copy, PartialEq, Eq)]
pub enum Link {
    /// There is none.
    Free,
    /// It stands, and there was room for the last piece that was put, if one was.
    Open,
    /// It stands, and has had no room for so many seconds, counted up to the longest stall.
    Full(u8),
}

impl Link {
    /// Whether it stands.
    pub fn stands(self) -> bool
        ensures { (place : ℕ) (run : List VenueCall) → Knows place run self
            → result ≡ stands place run }
    {
        match self {
            Link::Free => false,
            Link::Open | Link::Full(_) => true,
        }
    }

    /// Whether one that stands has had no room for too long.
    pub fn is_stuck(self) -> bool
        ensures { (place : ℕ) (run : List VenueCall) → Knows place run self
            → stands place run ≡ true → result ≡ is_stuck place run }
    {
        match self {
            Link::Free => false,
            Link::Open => false,
            Link::Full(seconds) => seconds >= LONGEST_STALL,
        }
    }

    /// After a second.
    pub fn second(self) -> Link
        ensures { (place : ℕ) (run : List VenueCall) (more : Bool) → Knows place run self
            → Knows place (Wait more wait_end.Second ∷ run) result }
    {
        match self {
            Link::Free => Link::Free,
            Link::Open => Link::Open,
            Link::Full(seconds) => Link::Full(seconds.saturating_add(1).min(LONGEST_STALL)),
        }
    }

    /// After its client took some of a piece.
    pub fn wrote(self) -> Link
        ensures { (place : ℕ) (run : List VenueCall) (piece : List ℕ) (n : ℕ)
            → Knows place run self → Knows place (Put place piece (put.Wrote n) ∷ run) result }
    {
        match self {
            Link::Free => Link::Free,
            Link::Open | Link::Full(_) => Link::Open,
        }
    }

    /// After a piece found no room.
    pub fn full(self) -> Link
        ensures { (place : ℕ) (run : List VenueCall) (piece : List ℕ)
            → Knows place run self → Knows place (Put place piece put.Full ∷ run) result }
    {
        match self {
            Link::Free => Link::Free,
            Link::Open => Link::Full(0),
            Link::Full(seconds) => Link::Full(seconds),
        }
    }
}
