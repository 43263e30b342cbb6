//! A net over sockets of this machine's loopback address.
//!
//! [`StdNet`] serves a caller that is generic over [`pitch_io::Net`]. It opens nothing until
//! `begin`: then three lines of UDP and two connections of TCP on 127.0.0.1, at ports that the
//! system picks, with both sides of each in the caller's hands. Its contract does not follow the
//! bytes. It says that only a call that fails is counted as a fault, and that each other call fails
//! until `begin` has succeeded.
#![tactic(auto)]

mod connection;
mod line_sockets;
mod std_net;
#[cfg(test)]
mod tests;

pub use crate::std_net::StdNet;
