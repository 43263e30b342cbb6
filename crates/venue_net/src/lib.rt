//! What a venue hears and says by: its input of commands, lines of datagrams, connections of
//! clients that come to its doors, and one wait for all of them.
//!
//! No call but the wait waits, and a net may list its calls: a contract says what each adds to the
//! list, so that a program over a net can say which calls it made, and what it did with what came.
//! A count of faults rises where a call fails, and in no other.
#![tactic(auto)]

mod net;

pub use crate::net::{InputRead, VenueNet};
