//! The client's end of a unit: its client and the links of its two sessions, and nothing that
//! waits or calls the system. It takes blocks, bytes and seconds, and hands out what is to be put.
//!
//! A [`ClientEnd`] stands for the list of all that came to it, whatever that is: each call gives
//! the list with one thing more, and what it appends is what the definitions say of that. Its book
//! is what the first messages of the venue leave, for each venue of which the history of that list
//! speaks honestly.
//!
//! Whoever owns the sockets makes one for each unit, hands over each block of the unit and each
//! piece of its sessions, calls `second` once a second, and puts what is appended.
#![tactic(auto)]

mod end;
mod hearing;
mod laws;
mod session;

pub use crate::end::ClientEnd;
pub use crate::hearing::hear_told;
pub use crate::laws::{blocks_alone_are_followed, seconds_without_connections_ask_nothing};
pub use client_core::{Ask, Change, Status, UnitClient};
pub use client_links::Account;
