//! The clients of a whole stream with their levels, each made at the first block of its unit.

ghost use Rattle.std.specs.Prelude.{◌≡◌, ◌≤◌, ◌<◌, ℕ, List, [], ◌∷◌, OnOk, OnErr, IfOk, IsOk};
ghost use Rattle.std.specs.Prelude.{IfSome, Some, None, IfNone, true, false, length, slice_get};
ghost use Rattle.std.specs.Option.{IsSome, IsSomeAnd};
ghost use Rattle.unit_packets.specs.Blocks.{Block};
ghost use Rattle.pitch_model.specs.History.{Raw, Entry};
ghost use Rattle.pitch_model.specs.Honest.{Honest};
ghost use Rattle.heard_items.specs.Units.{unit_history};
ghost use Rattle.heard_items.specs.Heard.{heard_block};
ghost use Rattle.heard_items.specs.Changes.{block_change};
ghost use Rattle.client_core.specs.Client.{IsAsBefore, KeepsRoom, spare_of};
ghost use Rattle.unit_clients.specs.Clients.{IsClient, TracksAt, IsSlotAsBefore, KeepsTo};
ghost use Rattle.unit_clients.specs.Clients.{HaveHeard, client_of};
ghost use Rattle.unit_clients.specs.Room.{HearsFreely, HearFreely, HaveSpare, KeepRoom};
ghost use Rattle.best_quotes.specs.Quoting.{quotes_of_block};
ghost use Rattle.leveled_units.specs.Hearing.{TellBlock, Advances, IsIdle};
ghost use Rattle.leveled_units.specs.Hearing.{KeepSpare, OthersStay};

use crate::unit::{Heard, LeveledUnit};
use best_quotes::QuoteLines;
use client_core::Change;
use pitch_fields::{HoldLimit, OutOfMemory};
use std::alloc::Global;
use std::marker::Model;
use unit_clients::UnitTable;
use unit_packets::BlockView;

/// The client of each unit that a block named, with its levels. Each holds at most so many messages
/// that came too early.
#[derive(Drop)]
pub struct LeveledUnits {
    units: UnitTable<LeveledUnit>,
    // whether levels are kept
    leveled: bool,
}

impl Model for LeveledUnits {
    ghost use Rattle.client_core.specs.contracts.client.UnitClient as client;
    ghost use Rattle.unit_clients.specs.Clients.{Units};
    ghost use Rattle.unit_clients.specs.Tables.{table_code};

    ghost Value = { Units };

    ghost coded = { table_code client.the_row.coded };

    ghost view = { λ u. u.units };
}

// Hands a block to the client at its unit's place, which is made where there is none. A new client
// is put in its place only once it has heard the block.
fn hear_at(
    alloc: Global,
    limit: HoldLimit,
    leveled: bool,
    slot: &mut Option<LeveledUnit>,
    block: &BlockView<'_>,
) -> Result<Change, OutOfMemory>
    // Where the place was right for some blocks of a unit, the client there then stands for the
    // unit's history by them with this block after it.
    ensures tracks { OnOk result ((before : List Block) (unit : ℕ) → IsClient limit before unit
        slot.old → TracksAt limit (heard_block block.now (unit_history unit before)) slot.new) }
    // Where a history with this block speaks of one venue's messages alone, the client keeps to
    // them.
    ensures keeps { OnOk result ((Image : List Raw → ℕ → List Raw) (V : List Raw) (E : List Entry)
        → Honest Image V (heard_block block.now E) → KeepsTo V slot.old → KeepsTo V slot.new) }
    ensures change { IfOk result (λ change. (before : List Block) (unit : ℕ) → IsClient limit
        before unit slot.old → change ≡ block_change limit (unit_history unit before) block.now) }
    ensures err { OnErr result (IsSlotAsBefore slot.old slot.new) }
    ensures memory { IsSomeAnd slot.old (λ client. HearsFreely client block.now) → IsOk result }
    ensures room { OnOk result (IfSome slot.old (λ client. IsSomeAnd slot.new
        (λ client'. KeepsRoom client client' (length block.now.raws)))) }
{
    match slot {
        Some(unit) => unit.hear(block),
        None => {
            let mut unit = LeveledUnit::make(alloc, limit, leveled)?;
            // It is dropped by calls: a function that drops one itself takes long to prove.
            match unit.hear(block) {
                Ok(change) => {
                    drop(slot.replace(unit));
                    Ok(change)
                }
                Err(error) => {
                    drop(unit);
                    Err(error)
                }
            }
        }
    }
}

// The same with the quotes of the messages that are applied, which fill `lines` anew.
fn hear_quoted_at(
    alloc: Global,
    limit: HoldLimit,
    slot: &mut Option<LeveledUnit>,
    block: &BlockView<'_>,
    lines: &mut QuoteLines,
) -> Result<Heard, OutOfMemory>
    ensures tracks { OnOk result ((before : List Block) (unit : ℕ) → IsClient limit before unit
        slot.old → TracksAt limit (heard_block block.now (unit_history unit before)) slot.new) }
    ensures keeps { OnOk result ((Image : List Raw → ℕ → List Raw) (V : List Raw) (E : List Entry)
        → Honest Image V (heard_block block.now E) → KeepsTo V slot.old → KeepsTo V slot.new) }
    ensures change { IfOk result (λ heard. (before : List Block) (unit : ℕ) → IsClient limit
        before unit slot.old
        → heard.change ≡ block_change limit (unit_history unit before) block.now) }
    ensures err { OnErr result (IsSlotAsBefore slot.old slot.new) }
    ensures quotes { IfOk result (λ heard. heard.told ≡ true
        → (Image : List Raw → ℕ → List Raw) (V : List Raw) (before : List Block) (unit : ℕ)
        → IsClient limit before unit slot.old
        → Honest Image V (heard_block block.now (unit_history unit before)) → KeepsTo V slot.old
        → lines.new.items ≡ quotes_of_block limit V (unit_history unit before) block.now) }
    ensures untold { IfOk result (λ heard. heard.told ≡ false → (before : List Block) (unit : ℕ)
        → IsClient limit before unit slot.old
        → Advances limit (unit_history unit before) block.now) }
    ensures memory { IsSome slot.old → IsIdle block.now → IsOk result }
    ensures room { OnOk result (IfSome slot.old (λ client. IsSomeAnd slot.new
        (λ client'. KeepsRoom client client' (length block.now.raws)))) }
{
    match slot {
        Some(unit) => unit.hear_quoted(block, lines),
        None => {
            let mut unit = LeveledUnit::make(alloc, limit, true)?;
            // It is dropped by calls, as above.
            match unit.hear_quoted(block, lines) {
                Ok(heard) => {
                    drop(slot.replace(unit));
                    Ok(heard)
                }
                Err(error) => {
                    drop(unit);
                    Err(error)
                }
            }
        }
    }
}

// Takes memory ahead for so many messages of the client at a place, where there is one.
fn reserve_at(slot: &mut Option<LeveledUnit>, messages: u32) -> Result<(), OutOfMemory>
    ensures same { IsSlotAsBefore slot.old slot.new }
    ensures room { OnOk result (IsSome slot.old
        → IsSomeAnd slot.new (λ client. messages ≤ spare_of client)) }
{
    match slot {
        Some(unit) => unit.reserve(messages),
        None => Ok(()),
    }
}

impl LeveledUnits {
    /// No unit has a client yet. Each will hold at most `limit` messages, and have levels where
    /// they are `leveled`.
    pub fn make(alloc: Global, limit: HoldLimit, leveled: bool) -> Result<LeveledUnits, OutOfMemory>
        ensures limit { IfOk result (λ units. units.limit ≡ limit) }
        ensures heard { IfOk result (λ units. HaveHeard units []) }
    {
        let units = UnitTable::make(alloc, limit)?;
        Ok(LeveledUnits { units, leveled })
    }

    /// Hands a block to the client of its unit, and answers what it changed there.
    ///
    /// The only error is that memory ran out. The clients are then as before the block, and a unit
    /// that had no client still has none.
    pub fn hear_block(
        &mut self,
        alloc: Global,
        block: &BlockView<'_>,
    ) -> Result<Change, OutOfMemory>
        ensures limit { self.new.limit ≡ self.old.limit }
        // Whatever blocks came before, the clients then stand for these with the block after them.
        ensures heard { OnOk result ((before : List Block)
            → HaveHeard self.old before → HaveHeard self.new (block.now ∷ before)) }
        // The answer is what the block changes for a client that has heard the unit's blocks
        // before.
        ensures change { IfOk result (λ change. (before : List Block) → HaveHeard self.old before
            → change ≡ block_change self.old.limit (unit_history block.now.unit before) block.now) }
        // After an error they stand for the blocks for which they stood before.
        ensures err { OnErr result
            ((before : List Block) → HaveHeard self.old before → HaveHeard self.new before) }
        // No error comes where the unit has a client with memory enough for the block.
        ensures memory { HearFreely self.old block.now → IsOk result }
        // Memory that was taken ahead for this block and for more messages still serves those; so
        // does all that was taken for other units, and after an error for any.
        ensures room { OnOk result (KeepRoom self.old self.new block.now) }
        ensures others { OthersStay self.old self.new block.now.unit }
        ensures kept { OnErr result (KeepSpare self.old self.new) }
    {
        let limit = self.units.limit();
        let leveled = self.leveled;
        let change = hear_at(alloc, limit, leveled, self.units.place_of(block), block)?;
        Ok(change)
    }

    /// Hears a block as `hear_block` does, and fills `lines` anew with what each message that it
    /// applies changes of the best prices of its unit. The unit keeps levels from then on.
    pub fn hear_quoted(
        &mut self,
        alloc: Global,
        block: &BlockView<'_>,
        lines: &mut QuoteLines,
    ) -> Result<Heard, OutOfMemory>
        ensures limit { self.new.limit ≡ self.old.limit }
        ensures heard { OnOk result ((before : List Block)
            → HaveHeard self.old before → HaveHeard self.new (block.now ∷ before)) }
        ensures change { IfOk result (λ heard. (before : List Block) → HaveHeard self.old before
            → heard.change
            ≡ block_change self.old.limit (unit_history block.now.unit before) block.now) }
        ensures err { OnErr result
            ((before : List Block) → HaveHeard self.old before → HaveHeard self.new before) }
        // Of the venue's messages, where what was heard speaks of them alone, the lines are those
        // of the block.
        ensures quotes { IfOk result (λ heard. heard.told ≡ true
            → TellBlock self.old lines.new.items block.now) }
        // No error comes for a heartbeat of a unit that has a client, nor for a block without a
        // sequence.
        ensures memory { IsSome (client_of self.old block.now.unit) → IsIdle block.now
            → IsOk result }
        // Memory that was taken ahead still serves as after `hear_block`.
        ensures room { OnOk result (KeepRoom self.old self.new block.now) }
        ensures others { OthersStay self.old self.new block.now.unit }
        ensures kept { OnErr result (KeepSpare self.old self.new) }
        // They are told wherever the block applies no message.
        ensures untold { IfOk result (λ heard. heard.told ≡ false → (before : List Block)
            → HaveHeard self.old before
            → Advances self.old.limit (unit_history block.now.unit before) block.now) }
    {
        let limit = self.units.limit();
        let heard = hear_quoted_at(alloc, limit, self.units.place_of(block), block, lines)?;
        Ok(heard)
    }

    /// Takes memory ahead for so many messages of a unit, where it has a client. The clients are as
    /// before in either case, and what was taken before serves still. More than the orders that a
    /// book can have is answered as want of memory.
    pub fn reserve(&mut self, unit: u8, messages: u32) -> Result<(), OutOfMemory>
        ensures limit { self.new.limit ≡ self.old.limit }
        ensures still { (before : List Block) → HaveHeard self.old before
            → HaveHeard self.new before }
        ensures room { OnOk result (IsSome (client_of self.old unit)
            → HaveSpare self.new unit messages) }
        ensures kept { KeepSpare self.old self.new }
    {
        reserve_at(self.units.place_at(unit), messages)?;
        Ok(())
    }

    /// The client of a unit with its levels, or None exactly where the unit has none.
    pub fn unit(&self, unit: u32) -> Option<&LeveledUnit>
        ensures there { IfSome result
            (λ client. slice_get self.now.places unit ≡ Some (Some client.now)) }
        ensures within { IfSome result (λ client. unit < 256) }
        ensures none { IfNone result (client_of self.now unit ≡ None) }
    {
        match self.units.places().get(unit as usize) {
            Some(place) => place.as_ref(),
            None => None,
        }
    }
}
