//! A live client that asks: it hears lines of datagrams, asks by its sessions for what was lost,
//! prints what came, and at its end the book of each unit.
#![tactic(auto)]

mod copies;
mod counts;
mod ended;
mod error;
mod peer;
mod recovering;
mod recovery;
mod seconds;
mod setup;

pub use crate::copies::Disagreement;
pub use crate::counts::Counts;
pub use crate::error::RecoverError;
pub use crate::peer::Peer;
pub use crate::recovery::recover;
pub use crate::setup::RecoverSetup;
pub use live_units::{Account, Session};
