//! What is said to a client, by its publisher and by its service.

use crate::run::DrillRun;
use crate::values::{Datagram, Image, Reached};

/// What a publisher says to its client.
#[derive(Drop)]
pub enum Word<R: DrillRun> {
    /// A datagram that came on a line.
    Sent(Datagram<R>),
    /// An image through a sequence can be had.
    Advertised(Reached<R>),
    /// Nothing more comes.
    Last,
}

/// What a service says to its client.
#[derive(Drop)]
pub enum Reply<R: DrillRun> {
    /// A gap ask is accepted or not.
    Gap { accepted: bool },
    /// A datagram of messages that were asked for again.
    Again(Datagram<R>),
    /// The image that was asked for, whole.
    Spin(Image<R>),
    /// The image through that sequence is not served.
    NoSpin { sequence: u32 },
}
