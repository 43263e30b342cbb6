//! The Spin Server: the shelf of a unit's images, and the server's end of a session. What the
//! server answers to bytes, in whatever pieces they come, is what its definition says of all that
//! happened to it and of the images that could be looked up meanwhile.
//!
//! The venue's side pushes each message to an [`ImageShelf`], and advertises now and then. It feeds
//! what a client sent to [`SpinServer::feed`], calls [`SpinServer::pump`] while that answers true,
//! tells of what was advertised with [`SpinServer::tell`], and of each second with
//! [`SpinServer::tick`].
#![tactic(auto)]

mod desk;
mod laws;
mod lookup;
mod server;
mod shelf;
mod spin;

pub use crate::laws::{image_look_laws, shelves_show_what_was_pushed, spin_cutting_laws};
pub use crate::lookup::{ImageLookup, Imaged};
pub use crate::server::SpinServer;
pub use crate::shelf::ImageShelf;
pub use order_book::image_of;
pub use session_ends::{Account, CloseCause, Closed};
