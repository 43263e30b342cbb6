//! The client's ends of sessions: a [`GapLink`] with the Gap Request Proxy, a [`SpinLink`] with a
//! Spin Server. A link stands for all that happened to it, bytes in whatever pieces, requests and
//! ticks: what it tells the client, what it sends and its closing are those that the definitions
//! of `specs/` give for these, and no byte causes anything else.
//!
//! Whoever runs a client makes a link for each connection, sends what it appends, feeds it the
//! bytes that come, hands the items to the unit's client, asks for what that client asks for, and
//! lets it tick once a second. A link that has closed takes bytes and does nothing.
#![tactic(auto)]

mod desk;
mod gap_link;
mod items;
mod laws;
mod link;
mod spin_link;

pub use crate::gap_link::{GapLink, ProxyPeer};
pub use crate::items::ItemList;
pub use crate::laws::cutting_laws;
pub use crate::link::{Link, Peer};
pub use crate::spin_link::{SpinLink, SpinPeer};
pub use session_ends::{Account, CloseCause, Closed};
