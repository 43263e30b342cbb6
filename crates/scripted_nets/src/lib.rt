//! Nets in memory for tests of live ends: one of lines and peers, which serves as one of lines
//! alone too, and one of a venue.
//!
//! What they answer is a script, a list of what happens next. They list their calls, and fail at
//! the calls that their maker lists.
#![tactic(auto)]

mod came;
mod failing;
mod live_log;
mod script;
mod scripted_lines;
mod scripted_live;
mod scripted_venue;
mod venue_log;

pub use crate::script::NetStep;
pub use crate::scripted_live::ScriptedLive;
pub use crate::scripted_venue::ScriptedVenue;
