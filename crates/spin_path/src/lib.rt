//! A client's history over its connections to Spin Servers, down to bytes. Whatever a client asks
//! for, however the bytes of a server are delayed and wherever they are cut, no image is bad, and
//! each image that is finished is that of the unit's messages.
//!
//! Whoever runs both ends keeps the moves of a connection as a witness: [`serve`] and [`carry`]
//! show how the clauses of the two ends add to them.
#![tactic(auto)]

mod carrying;
mod laws;
mod serving;

pub use crate::carrying::carry;
pub use crate::laws::{images_are_whole, moves_go_on};
pub use crate::serving::serve;
