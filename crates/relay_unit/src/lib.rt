//! A relay of one unit: it follows the unit by line blocks and by images, and sends messages of its
//! own, under its own sequences from 1, which leave the same book.
//!
//! Make a `Relay`, and hand it each block of its unit by `hear`, which appends the datagrams that
//! the block adds. For every history that the relay stood for it then stands for that history with
//! the block after it, and wherever that history is honest, what was sent is what the definition
//! says. `Relays` has the relay of each unit of a stream.
#![tactic(auto)]

mod hearing;
mod laws;
mod outlet;
mod relay;
mod relays;

pub use crate::laws::{
    blocks_have_no_more_messages_than_bytes, followers_have_the_orders_of_a_relay,
    relayed_messages_leave_the_followed_book,
};
pub use crate::outlet::Outlet;
pub use crate::relay::{Relay, RelayError};
pub use crate::relays::Relays;
