//! The messages of a unit that came too early, held until those before them have come.
//!
//! `Hold::offer` classifies a message by the floor, the limit and what is held: old, a repeat, the
//! next one, held, or an overflow that drops all others. After the next message has come,
//! `pop_next` hands over the held ones that follow it, and the floor rises with each. Only `make`
//! takes memory, so no other call can fail for want of it.
#![tactic(auto)]

mod hold;
mod ring;

pub use crate::hold::{Hold, Offer};
