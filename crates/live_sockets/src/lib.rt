//! Lines of datagrams over UDP, peers over TCP, and one wait for all of them, which tells the
//! seconds.
//!
//! [`LiveSockets`] serves a caller that is generic over [`live_net::LiveNet`]. Its contract does
//! not follow the bytes. It says which peers have a connection, that only a wait or a line that
//! fails is counted as a fault, and that a line that is not there fails.
#![tactic(auto)]

mod connection;
mod connections;
mod seconds;
mod sockets;
mod tokens;

pub use crate::connection::Connection;
pub use crate::connections::Connections;
pub use crate::seconds::Seconds;
pub use crate::sockets::LiveSockets;
