//! What a live end hears from: lines of datagrams, connections with peers, and one wait for all of
//! them.
//!
//! No call but the wait waits, and a net may list its calls: a contract says what each adds to the
//! list, so that a program over a net can say which calls it made, and what it did with what came.
//! A count of faults rises where a call fails, and in no other.
#![tactic(auto)]

mod live;
mod net;

pub use crate::live::{LiveNet, PeerOpened, PeerPut, PeerTaken, WaitEnd};
pub use crate::net::{LineNet, Received, Woken};
