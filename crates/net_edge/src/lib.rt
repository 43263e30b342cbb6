//! Both ends of a unit over a net, on one thread.
//!
//! [`demo`] runs a venue with its Gap Request Proxy and its Spin Server at one end of three lines
//! and two connections, and a client at the other. Both servers answer from a shared unit, whose
//! writer is the venue. Whatever the net loses, repeats, reorders or cuts, each end makes of what
//! came to it just what the definitions of its crate say. `specs/Demo.antt` says what such a run
//! is. [`StdNet`] is a net over sockets of this machine.
#![tactic(auto)]

mod end_set;
mod error;
mod plain;
mod putting;
mod running;
mod shared;
mod shared_venue;
mod stage;
mod turn;
mod venue;

pub use crate::error::DemoError;
pub use crate::running::{demo, demo_plain};
pub use loopback_net::StdNet;
