//! A venue's net over sockets: lines of datagrams over UDP, doors to which clients come over TCP,
//! the input of commands or commands of its own, and one wait for all of them, which tells the
//! seconds.
//!
//! [`VenueSockets`] serves a caller that is generic over [`venue_net::VenueNet`]. Its contract does
//! not follow the bytes. It says at which places a connection stands, and that only a wait or a
//! read of the input that fails is counted as a fault.
#![tactic(auto)]

mod doors;
mod input;
mod out_lines;
mod sockets;
mod state;
mod tokens;
mod trouble;
mod waiter;

pub use crate::input::VenueInput;
pub use crate::sockets::VenueSockets;
pub use crate::trouble::{VenuePart, VenueTrouble};
pub use crate::waiter::RunTime;
