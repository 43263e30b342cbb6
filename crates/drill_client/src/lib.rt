//! A unit's client in a drill, what crosses to it, and a unit's drill in turns on one thread.
//!
//! Whatever a client hears of one venue's messages, however often and in whatever order, it follows
//! that venue: it stands for an honest history. At its end it is told of all messages, and where it
//! is behind it asks for the image of all of them; with that it has all, and its line says so.
//! `begin` makes one; count its datagrams by `count_datagram`, which ticks; end it by
//! `asks_when_told_of_all`, then `hear_all` if it asks, and last `append_end`.
//!
//! What crosses to it from other threads keeps by its type what it says of the messages of its run,
//! a type that implements `DrillRun`. `Word` is what a publisher says to its client, and `Reply`
//! what a service says to it; `hear_word` and `hear_reply` hand them to the client. `drill_plain`
//! plays a unit's whole drill without a thread.
#![tactic(auto)]

mod ending;
mod following;
mod hearing;
mod items;
mod run;
mod turns;
mod values;
mod words;

pub use crate::ending::{append_end, asks_when_told_of_all, hear_all};
pub use crate::following::{begin, count_datagram, hear_datagram};
pub use crate::hearing::{hear_reply, hear_word};
pub use crate::run::DrillRun;
pub use crate::turns::{KEPT, ROUND, drill_hold, drill_plain};
pub use crate::values::{Datagram, Image, Reached};
pub use crate::words::{Reply, Word};
