//! The channels between the parties of a unit, and their ends.

use crossbeam_channel::{Receiver, Sender, unbounded};
use drill_client::{DrillRun, Reply, Word};
use pitch_fields::OutOfMemory;
use pitch_model::Ask;
use shared_unit::{FixedRun, Naming, Told};
use std::alloc::Global;

/// What a service hears.
#[derive(Drop)]
pub(crate) enum Request<J: Naming, R: FixedRun> {
    /// The client asks.
    Asked(Ask),
    /// The publisher tells of all that it did.
    Told(Told<J, R>),
}

/// The publisher's ends.
#[derive(Drop)]
pub(crate) struct PublisherEnds<J: Naming, R: DrillRun + FixedRun> {
    pub(crate) words: Sender<Word<R>>,
    pub(crate) told: Sender<Request<J, R>>,
}

/// The client's ends.
#[derive(Drop)]
pub(crate) struct ClientEnds<J: Naming, R: DrillRun + FixedRun> {
    pub(crate) words: Receiver<Word<R>>,
    pub(crate) replies: Receiver<Reply<R>>,
    pub(crate) asks: Sender<Request<J, R>>,
}

/// The service's ends.
#[derive(Drop)]
pub(crate) struct ServiceEnds<J: Naming, R: DrillRun + FixedRun> {
    pub(crate) requests: Receiver<Request<J, R>>,
    pub(crate) replies: Sender<Reply<R>>,
}

/// The ends of all three parties.
#[derive(Drop)]
pub(crate) struct Ends<J: Naming, R: DrillRun + FixedRun> {
    pub(crate) publisher: PublisherEnds<J, R>,
    pub(crate) client: ClientEnds<J, R>,
    pub(crate) service: ServiceEnds<J, R>,
}

impl<J: Naming, R: DrillRun + FixedRun> Ends<J, R> {
    /// Three channels without a bound: words go to the client, replies go to the client, and what
    /// is told and asked goes to the service.
    pub(crate) fn make(alloc: Global) -> Result<Ends<J, R>, OutOfMemory> {
        let (to_client, words) = unbounded(alloc)?;
        let (answers, replies) = unbounded(alloc)?;
        let (asks, requests) = unbounded(alloc)?;
        let told = asks.clone()?;
        Ok(Ends {
            publisher: PublisherEnds {
                words: to_client,
                told,
            },
            client: ClientEnds {
                words,
                replies,
                asks,
            },
            service: ServiceEnds {
                requests,
                replies: answers,
            },
        })
    }
}
