//! The venue's side of a unit: a venue, the messages that its proxy looks up, and the images that
//! its Spin Server looks up.
//!
//! A market stands for one list of messages, which its venue accepted and its store and its shelf
//! have, whatever call ran out of memory. Make a [`Market`], hand it commands by `accept`, send
//! what is pending by `flush`, and advertise images by `advertise`. A market is itself where a
//! proxy looks up gaps and a Spin Server images.
#![tactic(auto)]

mod market;

pub use crate::market::Market;
