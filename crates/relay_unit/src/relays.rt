//! The relays of a whole stream, one for each unit that a block names.

ghost use Rattle.std.specs.Prelude.{◌≡◌, ◌++◌, [], OnOk, OnErr, IfOk, IfErr};
ghost use Rattle.relay_unit.specs.layers.AnyRelays.{HaveSent, AppendAny, AppendsAnyAt};
ghost use Rattle.relay_unit.specs.layers.Calls.{HaveRelayedAfter, AppendVenues, AreChanged};
ghost use Rattle.relay_unit.specs.layers.Calls.{OutrunVenues, SpendFew};
ghost use Rattle.relay_unit.specs.layers.Outlets.{Appends, JoinsMore};
ghost use Rattle.relay_unit.specs.layers.Places.{StandsThere, AppendsThere, ChangesThere};
ghost use Rattle.relay_unit.specs.layers.Places.{OutrunsThere, SpentThere};
ghost use Rattle.relay_unit.specs.Relays.{HaveRelayed};

use crate::relay::{Relay, RelayError};
use client_core::Change;
use pitch_fields::{HoldLimit, OutOfMemory};
use std::alloc::Global;
use std::marker::Model;
use unit_clients::UnitTable;
use unit_packets::BlockView;

/// The relay of each unit that a block named. Each holds at most so many messages that came too
/// early.
#[derive(Drop)]
pub struct Relays {
    relays: UnitTable<Relay>,
}

impl Model for Relays {
    ghost use Rattle.relay_unit.specs.contracts.relay.Relay as relay;
    ghost use Rattle.relay_unit.specs.Relays.{Relays};
    ghost use Rattle.unit_clients.specs.Tables.{table_code};

    ghost Value = { Relays };

    ghost coded = { table_code relay.the_row.coded };

    ghost view = { λ r. r.relays };
}

// Hands a block to the relay at its unit's place, which is made where there is none.
fn hear_at(
    alloc: Global,
    limit: HoldLimit,
    slot: &mut Option<Relay>,
    block: &BlockView<'_>,
    out: &mut Vec<u8>,
) -> Result<Change, RelayError>
    ensures stands { OnOk result (StandsThere limit slot.old slot.new block.now) }
    ensures sends { OnOk result
        (AppendsThere limit slot.old block.now out.old.items out.new.items) }
    ensures any { OnOk result
        (AppendsAnyAt slot.old slot.new block.now out.old.items out.new.items) }
    ensures change { IfOk result (ChangesThere limit slot.old block.now) }
    ensures outrun { IfErr result (OutrunsThere limit slot.old block.now) }
    ensures many { IfErr result (SpentThere limit slot.old block.now) }
    ensures grown { OnOk result (Appends (JoinsMore out.old.items out.new.items)) }
    ensures out { OnErr result (out.new.items ≡ out.old.items) }
{
    match slot {
        Some(relay) => relay.hear(block, out),
        None => {
            let mut relay = Relay::make(alloc, block.header().unit, limit)?;
            // It is dropped by calls: a function that drops a relay itself takes long to prove.
            match relay.hear(block, out) {
                Ok(change) => {
                    drop(slot.replace(relay));
                    Ok(change)
                }
                Err(error) => {
                    drop(relay);
                    Err(error)
                }
            }
        }
    }
}

impl Relays {
    /// No unit has a relay yet. Each will hold at most `limit` messages.
    pub fn make(alloc: Global, limit: HoldLimit) -> Result<Relays, OutOfMemory>
        ensures limit { IfOk result (λ relays. relays.limit ≡ limit) }
        ensures heard { IfOk result (λ relays. HaveRelayed relays []) }
        // No unit's relay has sent a message.
        ensures any { IfOk result (λ relays. HaveSent relays (λ unit. [])) }
    {
        let relays = UnitTable::make(alloc, limit)?;
        Ok(Relays { relays })
    }

    /// Hands a block to the relay of its unit, which appends the datagrams that the block adds.
    ///
    /// After an error that unit's relay is spent, and nothing was appended.
    pub fn hear(
        &mut self,
        alloc: Global,
        block: &BlockView<'_>,
        out: &mut Vec<u8>,
    ) -> Result<Change, RelayError>
        ensures limit { self.new.limit ≡ self.old.limit }
        // Whatever blocks came before, the relays then stand for these with the block after them.
        ensures heard { OnOk result (HaveRelayedAfter self.old self.new block.now) }
        // For every venue of which the unit's blocks up to this one speak, what is appended are the
        // block's datagrams.
        ensures sends { OnOk result
            (AppendVenues self.old block.now out.old.items out.new.items) }
        // Whatever they say, what is appended are messages of the unit behind all that its relay
        // had sent, which leave the orders of the book that it follows then.
        ensures any { OnOk result
            (AppendAny self.old self.new block.now out.old.items out.new.items) }
        ensures change { IfOk result (AreChanged self.old block.now) }
        // The sequences are spent only where the block outruns the last one.
        ensures outrun { IfErr result (OutrunVenues self.old block.now) }
        // Whatever the blocks say, they are spent only where those of the unit have more messages
        // than there are sequences.
        ensures many { IfErr result (SpendFew self.old block.now) }
        ensures grown { OnOk result (Appends (JoinsMore out.old.items out.new.items)) }
        ensures out { OnErr result (out.new.items ≡ out.old.items) }
    {
        let limit = self.relays.limit();
        let change = hear_at(alloc, limit, self.relays.place_of(block), block, out)?;
        Ok(change)
    }
}
