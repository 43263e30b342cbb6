//! A drill with live threads: the plan's messages of each unit go over lossy lines to a client that
//! asks for what it lacks, while they go on.
//!
//! Each unit has three parties beside one another. A publisher accepts the plan through a shared
//! unit's writer and sends what is not lost, a client hears, ticks and asks, and a service answers
//! from a server. They share nothing but channels, and what crosses keeps by its type what it says
//! of the run. So whatever the threads do, each unit's client ends with all messages, and its line
//! says so.
#![tactic(auto)]

mod client;
mod closing;
mod course;
mod ends;
mod outbox;
mod publisher;
mod service;
mod unit;
mod units;

pub use crate::units::drill;
pub use drill_client::{Datagram, DrillRun, Image, Reached, Reply, Word, drill_plain};
