//! The clients of a whole stream, each made at the first block of its unit.

ghost use Rattle.std.specs.Prelude.{◌≡◌, ◌≤◌, ℕ, List, [], ◌∷◌, OnOk, OnErr, IfOk, IsOk, length};
ghost use Rattle.std.specs.Prelude.{IfSome};
ghost use Rattle.std.specs.Option.{IsSome, IsSomeAnd};
ghost use Rattle.unit_packets.specs.Blocks.{Block};
ghost use Rattle.pitch_model.specs.History.{Raw, Entry};
ghost use Rattle.pitch_model.specs.Honest.{Honest};
ghost use Rattle.heard_items.specs.Units.{unit_history};
ghost use Rattle.heard_items.specs.Heard.{heard_block};
ghost use Rattle.heard_items.specs.Changes.{block_change};
ghost use Rattle.client_core.specs.layers.Hearing.{Changes, HearsBlock, KeepsBlock};
ghost use Rattle.client_core.specs.Tracks.{Tracks, Keeps};
ghost use Rattle.client_core.specs.Client.{IsAsBefore, KeepsRoom, spare_of};
ghost use Rattle.unit_clients.specs.Clients.{IsClient, TracksAt, IsSlotAsBefore, KeepsTo};
ghost use Rattle.unit_clients.specs.Clients.{HaveHeard, client_of};
ghost use Rattle.unit_clients.specs.Room.{HearsFreely, HearFreely, HaveSpare, KeepRoom};

use crate::table::UnitTable;
use client_core::{Change, UnitClient};
use pitch_fields::{HoldLimit, OutOfMemory};
use std::alloc::Global;
use std::marker::Model;
use unit_packets::BlockView;

/// The client of each unit that a block named. Each holds at most so many messages that came too
/// early.
#[derive(Drop)]
pub struct Units {
    clients: UnitTable<UnitClient>,
}

impl Model for Units {
    ghost use Rattle.client_core.specs.contracts.client.UnitClient as client;
    ghost use Rattle.unit_clients.specs.Clients.{Units};
    ghost use Rattle.unit_clients.specs.Tables.{table_code};

    ghost Value = { Units };

    ghost coded = { table_code client.the_row.coded };

    ghost view = { λ u. u.clients };
}

// Hands a block to a client.
#[inline]
fn hear(client: &mut UnitClient, block: &BlockView<'_>) -> Result<Change, OutOfMemory>
    // A client that stood for a history then stands for it with the block after it.
    ensures tracks { OnOk result (HearsBlock client.old client.new block.now) }
    ensures keeps { OnOk result (KeepsBlock client.old client.new block.now) }
    ensures change { IfOk result (λ change. Changes client.old change block.now) }
    ensures err { OnErr result (IsAsBefore client.old client.new) }
    ensures memory { HearsFreely client.old block.now → IsOk result }
    ensures room { OnOk result (KeepsRoom client.old client.new (length block.now.raws)) }
{
    client.hear_block(block.header().sequence, block.raws(), &mut ())
}

// Hands a block to the client at its unit's place, which is made where there is none. A new client
// is put in its place only once it has heard the block.
#[inline]
fn hear_at(
    alloc: Global,
    limit: HoldLimit,
    slot: &mut Option<UnitClient>,
    block: &BlockView<'_>,
) -> Result<Change, OutOfMemory>
    // Where the place was right for some blocks of a unit, the client there then stands for the
    // unit's history by them with this block after it.
    ensures tracks { OnOk result ((before : List Block) (unit : ℕ) → IsClient limit before unit
        slot.old → TracksAt limit (heard_block block.now (unit_history unit before)) slot.new) }
    // Where a history with this block speaks of one venue's messages alone, the client keeps to
    // them.
    ensures keeps { OnOk result ((Image : List Raw → ℕ → List Raw) (V : List Raw) (E : List Entry)
        → Honest Image V (heard_block block.now E) → KeepsTo V slot.old → KeepsTo V slot.new) }
    ensures change { IfOk result (λ change. (before : List Block) (unit : ℕ) → IsClient limit
        before unit slot.old → change ≡ block_change limit (unit_history unit before) block.now) }
    ensures err { OnErr result (IsSlotAsBefore slot.old slot.new) }
    ensures memory { IsSomeAnd slot.old (λ client. HearsFreely client block.now) → IsOk result }
    ensures room { OnOk result (IfSome slot.old (λ client. IsSomeAnd slot.new
        (λ client'. KeepsRoom client client' (length block.now.raws)))) }
{
    match slot {
        Some(client) => hear(client, block),
        None => {
            let mut client = UnitClient::make(alloc, limit)?;
            // It is dropped by calls: a function that drops a client itself takes long to prove.
            match hear(&mut client, block) {
                Ok(change) => {
                    drop(slot.replace(client));
                    Ok(change)
                }
                Err(error) => {
                    drop(client);
                    Err(error)
                }
            }
        }
    }
}

// Takes memory ahead for so many messages of the client at a place, where there is one.
fn reserve_at(slot: &mut Option<UnitClient>, messages: u32) -> Result<(), OutOfMemory>
    ensures same { IsSlotAsBefore slot.old slot.new }
    ensures room { OnOk result (IsSome slot.old
        → IsSomeAnd slot.new (λ client. messages ≤ spare_of client)) }
{
    match slot {
        Some(client) => {
            if messages > u32::MAX - client.book().len() {
                return Err(OutOfMemory);
            }
            client.reserve(messages)
        }
        None => Ok(()),
    }
}

impl Units {
    /// No unit has a client yet. Each will hold at most `limit` messages.
    pub fn make(alloc: Global, limit: HoldLimit) -> Result<Units, OutOfMemory>
        ensures limit { IfOk result (λ units. units.limit ≡ limit) }
        ensures heard { IfOk result (λ units. HaveHeard units []) }
    {
        let clients = UnitTable::make(alloc, limit)?;
        Ok(Units { clients })
    }

    /// Hands a block to the client of its unit, and answers what it changed there.
    ///
    /// The only error is that memory ran out. The clients are then as before the block, and a unit
    /// that had no client still has none.
    pub fn hear_block(
        &mut self,
        alloc: Global,
        block: &BlockView<'_>,
    ) -> Result<Change, OutOfMemory>
        ensures limit { self.new.limit ≡ self.old.limit }
        // Whatever blocks came before, the clients then stand for these with the block after them.
        ensures heard { OnOk result ((before : List Block)
            → HaveHeard self.old before → HaveHeard self.new (block.now ∷ before)) }
        // The answer is what the block changes for a client that has heard the unit's blocks
        // before.
        ensures change { IfOk result (λ change. (before : List Block) → HaveHeard self.old before
            → change ≡ block_change self.old.limit (unit_history block.now.unit before) block.now) }
        // After an error they stand for the blocks for which they stood before.
        ensures err { OnErr result
            ((before : List Block) → HaveHeard self.old before → HaveHeard self.new before) }
        // No error comes where the unit has a client with memory enough for the block.
        ensures memory { HearFreely self.old block.now → IsOk result }
        // Memory that was taken ahead for this block and for more messages still serves those.
        ensures room { OnOk result (KeepRoom self.old self.new block.now) }
    {
        let limit = self.clients.limit();
        let change = hear_at(alloc, limit, self.clients.place_of(block), block)?;
        Ok(change)
    }

    /// Takes memory ahead for so many messages of a unit, where it has a client. The clients are as
    /// before in either case. More than the orders that a book can have is answered as want of
    /// memory.
    pub fn reserve(&mut self, unit: u8, messages: u32) -> Result<(), OutOfMemory>
        ensures limit { self.new.limit ≡ self.old.limit }
        ensures still { (before : List Block) → HaveHeard self.old before
            → HaveHeard self.new before }
        ensures room { OnOk result (IsSome (client_of self.old unit)
            → HaveSpare self.new unit messages) }
    {
        reserve_at(self.clients.place_at(unit), messages)?;
        Ok(())
    }

    /// The place of each unit, at its number. It is empty where no block named the unit.
    pub fn clients(&self) -> &[Option<UnitClient>]
        ensures clients { result.now ≡ self.now.places }
        ensures many { length result.now ≡ 256 }
    {
        self.clients.places()
    }
}
