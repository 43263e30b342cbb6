//! The turns of a live client: which call of its net it makes next, and when the connection with a
//! peer is begun again.
#![tactic(auto)]

mod due;
mod place;
mod retry;
mod turns;

pub use crate::due::Due;
pub use crate::turns::LiveTurns;
