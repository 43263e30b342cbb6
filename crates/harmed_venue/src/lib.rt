//! A net of a venue that harms what is sent and said by it, so that a handler's recovery is tried:
//! it loses, repeats and swaps datagrams, and cuts the connections of clients.
//!
//! What is done is drawn from a number: which calls are made of the net below is a function of the
//! calls that are made of this one, and the same in each run.
#![tactic(auto)]

mod call_log;
mod cuts;
mod fate;
mod harm;
mod laws;
mod line;
mod lines;
mod venue;

pub use crate::harm::{Harm, Shares};
pub use crate::laws::{a_harmless_net_passes_all_on, nothing_else_is_lost, nothing_is_made_up};
pub use crate::venue::HarmedVenue;
