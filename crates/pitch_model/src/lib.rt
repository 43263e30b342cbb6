//! What a client of the feed knows and asks, as definitions, with the types that they speak of.
//!
//! The definitions stand in `specs/`: the book, a client's history, its reach and status, images,
//! and when a history is honest. What it hears of blocks and sessions stands in `heard_items`.
//! The functions in `laws` have empty bodies. Each carries a law of these definitions, and a caller
//! that needs the law calls it.
#![tactic(auto)]

mod ask;
pub mod laws;
mod order_change;
mod status;

pub use crate::ask::Ask;
pub use crate::order_change::OrderChange;
pub use crate::status::Status;
