//! The venue of one unit: which commands it accepts, which message each makes, and the datagrams
//! that it sends.
//!
//! A command is accepted exactly where no refusal holds after the messages accepted so far, else it
//! is refused for the first that holds. Make a `Venue`, hand it commands by `accept`, and take the
//! datagrams of what is pending by `flush`, and a heartbeat by `beat`.
//!
//! Commands to try it with come from `plan_command`, which makes the plan: a venue accepts each of
//! the first 400,000 in order, whatever their number. `lost` says which copies of the datagrams do
//! not arrive.
#![tactic(auto)]

mod error;
mod loss;
mod message;
mod outbox;
mod plan;
mod refusal;
mod venue;

pub use crate::error::VenueError;
pub use crate::loss::lost;
pub use crate::plan::{plan_command, plan_is_accepted, plan_is_in_order, plan_leaves_its_orders};
pub use crate::venue::Venue;
