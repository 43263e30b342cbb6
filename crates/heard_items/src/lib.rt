//! What a client hears: items, from blocks on the lines and from both its sessions, and what each
//! adds to its history and changes.
//!
//! The definitions stand in `specs/`: a block and an item as entries of a history, what they
//! change, the units of a stream, and the pieces of a venue's feed. The functions in `laws` have
//! empty bodies, as in `pitch_model`: each carries a law of these definitions.
#![tactic(auto)]

mod change;
mod item;
pub mod laws;

pub use crate::change::{Change, ImageEnd};
pub use crate::item::Item;
