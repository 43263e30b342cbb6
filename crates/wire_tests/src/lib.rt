//! Worked examples of the wire: fields, messages, blocks, datagrams and captures, as bytes written
//! by hand.
//!
//! There are tests alone here. In a crate of its own each test function is proved by itself; beside
//! the code the whole crate would be proved once more for it.
#![tactic(auto)]

#[cfg(test)]
mod captures;
#[cfg(test)]
mod fields;
#[cfg(test)]
mod messages;
#[cfg(test)]
mod packets;
