//! Readers and writers that no signal breaks off, and that wait where they can't go on.
//!
//! [`Patient`] serves whoever reads or writes a descriptor that may be in non-blocking mode, as a
//! standard stream is where its parent shares it. Its contract does not follow the bytes. It says
//! that an error of it is a fault: it never says that a call was broken off, or that the stream
//! was not ready.
#![tactic(auto)]

mod patient;
mod waiting;

pub use crate::patient::Patient;
pub use crate::waiting::comes_within;
