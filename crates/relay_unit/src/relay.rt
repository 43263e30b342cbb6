//! The relay of a unit: a client that follows, and the sequences under which it sends.

ghost use Rattle.std.specs.Prelude.{◌≤◌};
ghost use Rattle.pitch_fields.specs.Limits.{last_sequence};

use crate::hearing::hear_merged;
use crate::outlet::Outlet;
use client_core::{Change, Item, UnitClient};
use order_book::UnitBook;
use pitch_fields::{HoldLimit, OutOfMemory};
use pitch_messages::RawList;
use std::alloc::Global;
use unit_packets::{BlockView, LAST_SEQUENCE};

/// Why a relay does not go on.
#[derive(Clone, Copy, PartialEq, Eq)]
pub enum RelayError {
    /// What was sent and what a block adds have no sequences any more.
    SequencesSpent {
        /// How many messages were sent.
        sent: u32,
        /// How many the block adds.
        more: u64,
    },
    /// Memory ran out.
    OutOfMemory,
}

impl From<OutOfMemory> for RelayError {
    ghost use Rattle.std.specs.Prelude.{◌≡◌};
    ghost use Rattle.relay_unit.specs.declared.relay.RelayError.TheVariants as errors;

    ghost from_gives = { λ _ error. error ≡ errors.OutOfMemory };

    fn from(_: OutOfMemory) -> RelayError {
        RelayError::OutOfMemory
    }
}

/// A relay of one unit. It follows the unit, and sends messages of its own, under its own sequences
/// from 1, which leave the book that it follows.
///
/// Once `hear` was refused the relay is spent: it gives that answer from then on.
#[derive(Drop)]
pub struct Relay {
    pub(crate) alloc: Global,
    pub(crate) unit: u8,
    pub(crate) client: UnitClient,
    // what the last block added
    pub(crate) added: RawList,
    // how many messages were sent
    pub(crate) sent: u32,
    pub(crate) spent: Option<RelayError>,
    ghost within: { sent ≤ last_sequence },
}

impl Relay {
    ghost use Rattle.std.specs.Prelude.{◌≡◌, ◌+◌, ℕ, [], length};
    ghost use Rattle.std.specs.Prelude.{OnOk, OnErr, IfOk, IfErr, Err};
    ghost use Rattle.unit_packets.specs.Blocks.{StaysWithin};
    ghost use Rattle.pitch_model.specs.Book.{empty_book};
    ghost use Rattle.relay_unit.specs.layers.Calls.{StandsAfter, AppendsRelayed, OutrunsAfter};
    ghost use Rattle.relay_unit.specs.layers.Calls.{IsChangeAfter, HearsFew, SpendsFew};
    ghost use Rattle.relay_unit.specs.layers.Calls.{AppendsAny, CountsAny};
    ghost use Rattle.relay_unit.specs.Following.{HasSent};
    ghost use Rattle.relay_unit.specs.Hearing.{first_heard};
    ghost use Rattle.relay_unit.specs.layers.Outlets.{Appends};
    ghost use Rattle.relay_unit.specs.layers.Sending.{AddsRelayed, AddsAny};
    ghost use Rattle.relay_unit.specs.Sparing.{HasHeard};
    ghost use Rattle.relay_unit.specs.Stands.{Stands, GoesOn, IsSpent};
    ghost use Rattle.relay_unit.specs.Stands.{relay_unit_of, followed_book};

    /// A relay that has sent nothing, holds at most `limit` messages and counts its Spin Server as
    /// up.
    pub fn make(alloc: Global, unit: u8, limit: HoldLimit) -> Result<Relay, OutOfMemory>
        ensures stands { IfOk result (λ relay. Stands relay limit first_heard) }
        // It has heard nothing, and so no more messages than any number.
        ensures heard { IfOk result (λ relay. (count : ℕ) → HasHeard relay count) }
        // It has sent no messages, and the book that it follows is empty.
        ensures any { IfOk result (λ relay. HasSent relay []) }
        ensures empty { IfOk result (λ relay. followed_book relay ≡ empty_book) }
        ensures unit { IfOk result (λ relay. relay_unit_of relay ≡ unit) }
    {
        let mut client = UnitClient::make(alloc, limit)?;
        match client.hear(&Item::SpinUp) {
            Ok(_) => Ok(Relay {
                alloc,
                unit,
                client,
                added: RawList::make(alloc),
                sent: 0,
                spent: None,
            }),
            Err(error) => {
                // By a call: a function that drops a client itself takes long to prove.
                drop(client);
                Err(error)
            }
        }
    }

    // Hears a block, unless the relay is spent. What the block adds is then in `added`, and counts
    // as sent: it answers the change, and the sequence of the first of these messages.
    fn take(&mut self, block: &BlockView<'_>) -> Result<(Change, u32), RelayError>
        ensures stands { OnOk result (StandsAfter self.old self.new block.now) }
        ensures adds { OnOk result (AddsRelayed self.old self.new block.now) }
        ensures change { IfOk result (λ taken. IsChangeAfter self.old block.now taken.0) }
        ensures first { IfOk result (λ taken. taken.1 ≡ self.old.sent + 1) }
        ensures within { IfOk result
            (λ taken. StaysWithin taken.1 (length self.new.added.items)) }
        ensures outrun { IfErr result (OutrunsAfter self.old block.now) }
        ensures heard { OnOk result (HearsFew self.old self.new block.now) }
        ensures many { IfErr result (SpendsFew self.old block.now) }
        ensures exact { IfErr result (CountsAny self.old self.new block.now) }
        ensures any { OnOk result (AddsAny self.old self.new block.now) }
        ensures unit { relay_unit_of self.new ≡ relay_unit_of self.old }
        ensures ready { OnOk result (GoesOn self.old) }
        ensures spent { IfErr result (IsSpent self.new) }
        ensures again { (error : RelayError) → IsSpent self.old error → result ≡ Err error }
    {
        if let Some(error) = self.spent {
            return Err(error);
        }
        self.added.truncate(0);
        let Ok(change) = hear_merged(self.alloc, &mut self.client, block, &mut self.added) else {
            self.spent = Some(RelayError::OutOfMemory);
            return Err(RelayError::OutOfMemory);
        };
        self.client.tick();
        let more = self.added.len() as u64;
        if more > (LAST_SEQUENCE - self.sent) as u64 {
            let error = RelayError::SequencesSpent {
                sent: self.sent,
                more,
            };
            self.spent = Some(error);
            return Err(error);
        }
        let first = self.sent + 1;
        self.sent += more as u32;
        Ok((change, first))
    }

    /// Hears a block, and appends the datagrams of what it adds.
    ///
    /// A block with a sequence is one of a line. One without tells what a Spin Server says, or has
    /// messages of an image. Where an image is taken, what is sent is a Unit Clear and the image of
    /// the book as it is then; else it is the messages that were applied.
    pub fn hear<O: Outlet>(
        &mut self,
        block: &BlockView<'_>,
        out: &mut O,
    ) -> Result<Change, RelayError>
        // Whatever history the relay stood for, it now stands for that history and this block.
        ensures stands { OnOk result (StandsAfter self.old self.new block.now) }
        // Of any venue of which that history speaks, what is appended is what it adds to what is
        // relayed, under the sequences behind those sent.
        ensures sends { OnOk result
            (AppendsRelayed self.old block.now (O.gains out.old out.new)) }
        // The answer is what the block changes: the status before and after it, how many messages
        // were fresh and overflowed the hold, and the last end of an image.
        ensures change { IfOk result (IsChangeAfter self.old block.now) }
        // The sequences are spent only where what is relayed then outruns the last one.
        ensures outrun { IfErr result (OutrunsAfter self.old block.now) }
        // Whatever it heard, it sends no more messages than it heard, and its sequences are spent
        // only where these are more than there are sequences.
        ensures heard { OnOk result (HearsFew self.old self.new block.now) }
        ensures many { IfErr result (SpendsFew self.old block.now) }
        // The error counts what it had sent, and what the block would add.
        ensures exact { IfErr result (CountsAny self.old self.new block.now) }
        // Whatever it heard, what is appended are messages behind all that it had sent, which leave
        // the orders of the book that it follows then.
        ensures any { OnOk result
            (AppendsAny self.old self.new block.now (O.gains out.old out.new)) }
        ensures unit { relay_unit_of self.new ≡ relay_unit_of self.old }
        ensures grown { OnOk result (Appends (O.gains out.old out.new)) }
        ensures out { OnErr result (O.stays out.old out.new) }
        // Once it was refused, the relay gives that answer again.
        ensures ready { OnOk result (GoesOn self.old) }
        ensures spent { IfErr result (IsSpent self.new) }
        ensures again { (error : RelayError) → IsSpent self.old error → result ≡ Err error }
    {
        let (change, first) = self.take(block)?;
        match out.append(self.alloc, self.unit, first, self.added.raws()) {
            Ok(()) => Ok(change),
            Err(_) => {
                self.spent = Some(RelayError::OutOfMemory);
                Err(RelayError::OutOfMemory)
            }
        }
    }

    /// The book that the relay follows.
    pub fn book(&self) -> &UnitBook
        ensures { result.now.book ≡ followed_book self.now }
    {
        self.client.book()
    }
}
