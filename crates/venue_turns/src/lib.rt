//! The turns of a venue: which call of its net it makes next.
#![tactic(auto)]

mod due;
mod link;
mod place;
mod turns;

pub use crate::due::Due;
pub use crate::turns::{MOST_WAITING, ROOM_FOR_ONE, VenueTurns, first_piece};
