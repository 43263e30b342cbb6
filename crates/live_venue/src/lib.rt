//! A live venue: it reads commands, publishes the datagrams of each unit on lines A and B, answers
//! gap requests and spins of any number of clients, and sends a heartbeat each second.
#![tactic(auto)]

mod error;
mod fault;
mod hearing;
mod outbox;
mod queueing;
mod reader;
mod report;
mod seconds;
mod service;
mod serving;
mod setup;

pub use crate::error::{ReportError, ServeError};
pub use crate::fault::InputFault;
pub use crate::service::{serve, serve_and_report};
pub use crate::setup::ServeSetup;
