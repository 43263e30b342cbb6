//! A whole schedule, done line by line in the worlds of its units.
//!
//! `replay` appends what a schedule's lines write, and hands back the world of each unit that a
//! line names; or it answers the first fault of the schedule's text. The entries are read one at a
//! time, and none is kept.
#![tactic(auto)]

mod apart;
mod error;
pub mod laws;
mod merging;
mod replaying;
mod running;
mod stretches;
mod units;
mod unrun;

pub use crate::error::ReplayError;
pub use crate::replaying::replay;
pub use crate::running::WorldList;
pub use crate::units::replay_work;
