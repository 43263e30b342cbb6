//! The Gap Request Proxy's end of a session. A [`GrpServer`] stands for all that happened to it,
//! bytes in whatever pieces and ticks: its replies, the datagrams on the gap line and its closing
//! are those that the definitions of `specs/` give for these, and no byte causes anything else.
//!
//! Whoever serves makes one for each connection, feeds it the bytes that come with the day's
//! [`GapBudget`] and the unit's messages to look up in, sends what it appends, and lets both tick
//! once a second. A session that has closed takes bytes and does nothing.
#![tactic(auto)]

mod asking;
mod budget;
mod desk;
mod laws;
mod server;

pub use crate::budget::GapBudget;
pub use crate::laws::{cutting_laws, look_laws};
pub use crate::server::GrpServer;
pub use session_ends::{Account, CloseCause, Closed};
