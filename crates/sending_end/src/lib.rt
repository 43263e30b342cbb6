//! The client's end of a unit with the bytes that wait to be sent, for whoever puts them as the
//! room of a socket or a buffer allows.
//!
//! A [`SendingEnd`] stands for all that came to its `ClientEnd`, and keeps what that says until it
//! is taken: for the proxy and for the Spin Server, in their order. What waits for a connection
//! that ends is dropped.
#![tactic(auto)]

mod end;
mod queue;
mod session;

pub use crate::end::{Passed, SendingEnd};
pub use crate::session::Session;
pub use client_end::{Account, Ask, Change, Status, UnitClient};
