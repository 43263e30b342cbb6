//! The lines of a feed: the items of a datagram's blocks, and how many messages of each unit each
//! line brought.
//!
//! Hand a datagram to `Arbiter::deliver`, let the unit's client hear the items, and `note` how many
//! of their messages it found fresh; `counts` answers the sums.
#![tactic(auto)]

mod arbiter;
mod count;
mod heard;

pub use crate::arbiter::Arbiter;
pub use crate::count::LineCount;
pub use crate::heard::{DatagramFault, Heard, HeardList};
pub use pitch_io::Line;
