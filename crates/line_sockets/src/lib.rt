//! Lines of datagrams over UDP, and one wait for all of them.
//!
//! [`LineSockets`] serves a caller that is generic over [`live_net::LineNet`]. Its sockets are
//! bound here, or were bound, and joined to their groups, by whoever started the program. Its
//! contract does not follow the bytes. It says that only a call that fails is counted as a fault,
//! and that a line that is not there fails.
#![tactic(auto)]

mod input;
mod lines;
mod port;
mod sockets;
mod time_limit;
mod trouble;
mod waiter;

pub use crate::input::{INPUT, ask_again, register_input};
pub use crate::lines::{Lines, MOST_TRIES};
pub use crate::port::{Buffer, Port, ask_for_room, take_low};
pub use crate::sockets::LineSockets;
pub use crate::time_limit::{TimeLimit, shorter};
pub use crate::trouble::Trouble;
pub use crate::waiter::{MOST_LAST_TURNS, Waiter};
