//! The shared unit: one writer and the servers that answer beside it, without a lock and without
//! waiting. What a server answers is right at one point of the writer's one history, which is no
//! earlier than what was published when the answer began, nor than anything that the server had
//! answered from or was told of.
//!
//! A history is a list of operations: a message was accepted, or the newest sequence was
//! advertised. It is part of the list of all that happens: an operation is done, it is published, a
//! server begins an answer. [`make`] gives the [`Writer`] and the [`Server`]s, with the empty
//! history. A [`Told`], which [`Writer::tell`] gives and which may go to another thread, lets a
//! server answer from no earlier than it was told.
#![tactic(auto)]

mod book;
mod desk;
mod holder;
mod lookup;
mod past;
mod places;
mod published;
mod run;
mod sequences;
mod server;
mod store;
mod told;
mod writer;

pub use crate::book::{Entry, Law, Opened};
pub use crate::places::{LeftRightPlaces, MakeError, Places, make};
pub use crate::run::{FixedRun, Naming};
pub use crate::server::Server;
pub use crate::told::Told;
pub use crate::writer::Writer;
