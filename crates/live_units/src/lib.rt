//! The units of a live client: what comes to each on lines and by its two sessions, what is printed
//! of that, and what waits to be sent; and their table, which hands each what is its own. They call
//! no net.
#![tactic(auto)]

mod ended;
mod laws;
mod line;
mod place;
mod unit;
mod units;

pub use crate::laws::{a_unit_ends_at_its_venues_end, blocks_alone_print_what_follow_does};
pub use crate::unit::{LiveUnit, Taken};
pub use crate::units::LiveUnits;
pub use sending_end::{Account, Passed, Session};
