//! A listener: it hears lines of datagrams over a net, prints what `follow` prints of their blocks,
//! and at its end the book of each unit.
#![tactic(auto)]

mod counts;
mod error;
mod listener;
mod listening;
mod place;
mod setup;

pub use crate::counts::Counts;
pub use crate::error::ListenError;
pub use crate::listening::listen;
pub use crate::setup::ListenSetup;
