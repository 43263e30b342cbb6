//! The units of a venue in one process: the end of each, by the unit's index in the setup, and the
//! places at which clients' connections stand. They wait for nothing and call nothing.
//!
//! [`VenueUnits`] stand for the list of all that came to the ends, each with its unit: each call
//! gives the list with one thing more. What comes to a unit that is not there changes nothing.
//!
//! A unit has 128 places: those of the unit with index 1, say, are 128 to 255. The first 64 are at
//! the door of its proxy, and the others at that of its Spin Server.
#![tactic(auto)]

mod door;
mod laws;
mod units;

pub use crate::door::{DOOR_PLACES, UNIT_PLACES, is_spin, unit_of};
pub use crate::laws::{cut_places_are_shut, messages_are_the_commands};
pub use crate::units::VenueUnits;
pub use venue_end::{Account, VenueError, VenueSetup};
