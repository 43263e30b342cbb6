//! A storm, which is a long day of losses made from a number, and its replay.
//!
//! Each unit's venue gets the plan, some copies of its datagrams are lost and those on line B come
//! late, and what was lost on both lines is asked of the Gap Request Proxy. At the end comes an
//! image. `generate` appends the schedule of a [`Storm`] as a text that `read_schedule` reads.
//!
//! `run_storm` does all its lines in the worlds of its units, and appends a line for the storm and
//! one for each unit: the status of its client, and the orders and the shares of that client's
//! book. It hands the worlds back.
#![tactic(auto)]

mod laws;
mod running;
mod schedule;
mod summary;
mod units;
mod verbs;

pub use crate::laws::{storms_are_read, storms_end_whole};
pub use crate::running::run_storm;
pub use crate::schedule::{Storm, generate};
pub use crate::summary::put_storm_line;
