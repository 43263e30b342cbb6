//! A venue's net that looks on: it passes every call on to another one, and writes a line for each
//! message of a client's session that asks for something.
#![tactic(auto)]

mod line;
mod seat;
mod trouble;
mod watched;
mod watcher;

pub use crate::trouble::WatchTrouble;
pub use crate::watched::WatchedVenue;
