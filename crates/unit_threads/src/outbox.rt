//! The sending end of a channel, which knows what was handed to it.

ghost use Rattle.std.specs.Prelude.{◌≡◌, ◌++◌, ◌∷◌, [], OnOk};

use crossbeam_channel::{SendError, Sender};
use pitch_fields::OutOfMemory;
use std::alloc::Global;
use std::marker::Model;
use std::snapshot::Snapshot;
use std::sync::Wait;

/// A sending end. Contracts see it as all that was handed to its channel, the first first. That it
/// comes out at the other end no contract says.
#[derive(Drop)]
pub(crate) struct Outbox<T> {
    to: Sender<T>,
    // for the contracts alone: a snapshot has no bytes
    handed: Vec<Snapshot<T>>,
}

impl<T> Model for Outbox<T> {
    ghost use Rattle.std.specs.Prelude.{List, map};
    ghost use Rattle.std.specs.Coded.{coded_list};

    ghost Value = { List T };

    ghost coded = { coded_list T.code };

    ghost view = { λ o. map (λ s. s.value) o.handed.items };
}

impl<T: Drop> Outbox<T> {
    /// The end, through which nothing was sent yet.
    pub(crate) fn make(alloc: Global, to: Sender<T>) -> Outbox<T>
        ensures { result ≡ [] }
    {
        Outbox {
            to,
            handed: Vec::new(alloc),
        }
    }

    /// How many messages wait in its channel now. No contract says anything of it.
    pub(crate) fn waiting(&self) -> usize {
        self.to.len()
    }

    /// Sends a message. It is dropped where the other party has ended.
    pub(crate) fn send<W: Wait>(&mut self, rt: &W, message: T) -> Result<(), OutOfMemory>
        ensures { OnOk result (self.new ≡ self.old ++ message ∷ []) }
    {
        self.handed.push(Snapshot::of(&message))?;
        match self.to.send(rt, message) {
            Err(SendError::OutOfMemory(_message)) => Err(OutOfMemory),
            _sent_or_dropped => Ok(()),
        }
    }
}
