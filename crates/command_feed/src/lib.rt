//! The feed of one unit that a text of venue commands makes: the text is read, the venue accepts
//! its commands one after another, and all messages are packed into datagrams.
//!
//! `append_feed` appends the bytes of the feed to a list, or answers the first fault of the text or
//! the first command that the venue refuses; the list is then as before.
#![tactic(auto)]

mod batch;
mod error;
mod feed;

pub use crate::error::CommandError;
pub use crate::feed::append_feed;
