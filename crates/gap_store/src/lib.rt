//! The last messages of a unit, from which a range can be asked for again. A [`GapStore`] stands
//! for all messages that were pushed and for how many of the last it keeps; a look-up tells of
//! these whether a range is kept, is gone, or has not come yet.
//!
//! A venue pushes each message that it accepts; a proxy looks up through [`GapLookup`], which other
//! stores can implement too.
#![tactic(auto)]

mod found;
mod laws;
mod store;

pub use crate::found::{Found, GapLookup};
pub use crate::laws::look_laws;
pub use crate::store::GapStore;
