//! The venue's end of a unit: its venue, the messages and images that can be looked up, the budget
//! of gap requests, and any number of sessions with its proxy and with its Spin Server. It waits
//! for nothing and calls nothing.
//!
//! A [`VenueEnd`] stands for the list of all that came to it, whatever that is: each call gives the
//! list with one thing more, and what it hands out is what the definitions say of that.
//!
//! Whoever owns the sockets makes one for each unit, gives each connection a number, hands over its
//! bytes, puts what waits for it, and calls `second` once a second.
//!
//! Its sessions alone are [`Servers`], for a unit whose messages and images are elsewhere: they
//! answer from any [`VenueSide`].
#![tactic(auto)]

mod laws;
mod proxies;
mod servers;
mod setup;
mod side;
mod spins;
mod table;
mod venue;

pub use crate::laws::images_are_the_venues;
pub use crate::servers::Servers;
pub use crate::setup::VenueSetup;
pub use crate::side::VenueSide;
pub use crate::venue::VenueEnd;
pub use session_ends::{Account, CloseCause, Closed};
pub use venue_core::VenueError;
