//! The quotes of a whole stream, with a unit's client and levels made at its first block.

ghost use Rattle.std.specs.Prelude.{◌≡◌, ◌++◌, ℕ, List, [], ◌∷◌, OnOk, IfOk};
ghost use Rattle.unit_packets.specs.Blocks.{Block};
ghost use Rattle.pitch_model.specs.History.{Raw};
ghost use Rattle.pitch_model.specs.Honest.{Honest};
ghost use Rattle.heard_items.specs.Changes.{block_change};
ghost use Rattle.heard_items.specs.HeardBlocks.{heard_block};
ghost use Rattle.heard_items.specs.Units.{unit_history};
ghost use Rattle.best_quotes.specs.Quoting.{quotes_of_block};
ghost use Rattle.best_quotes.specs.Units.{StandsAt, IsQuoted, HaveQuoted};

use crate::lines::QuoteLines;
use crate::unit::QuotedUnit;
use client_core::Change;
use pitch_fields::{HoldLimit, OutOfMemory};
use std::alloc::Global;
use std::marker::Model;
use unit_clients::UnitTable;
use unit_packets::BlockView;

/// The quoted unit of each unit that a block named. Each holds at most so many messages that came
/// too early.
#[derive(Drop)]
pub struct QuotedUnits {
    units: UnitTable<QuotedUnit>,
}

impl Model for QuotedUnits {
    ghost use Rattle.best_quotes.specs.contracts.unit.QuotedUnit as quoted;
    ghost use Rattle.best_quotes.specs.Units.{QuotedUnits};
    ghost use Rattle.unit_clients.specs.Tables.{table_code};

    ghost Value = { QuotedUnits };

    ghost coded = { table_code quoted.the_row.coded };

    ghost view = { λ q. q.units };
}

// Hands a block to what is in its unit's place, which is made where there is nothing.
fn hear_at(
    alloc: Global,
    limit: HoldLimit,
    slot: &mut Option<QuotedUnit>,
    block: &BlockView<'_>,
    lines: &mut QuoteLines,
) -> Result<Change, OutOfMemory>
    ensures stands { OnOk result ((before : List Block)
        → IsQuoted limit before block.now.unit slot.old
        → StandsAt limit (heard_block block.now (unit_history block.now.unit before)) slot.new) }
    ensures quotes { OnOk result
        ((before : List Block) (Image : List Raw → ℕ → List Raw) (V : List Raw)
        → IsQuoted limit before block.now.unit slot.old
        → Honest Image V (heard_block block.now (unit_history block.now.unit before))
        → lines.new.items ≡ lines.old.items
        ++ quotes_of_block limit V (unit_history block.now.unit before) block.now) }
    ensures change { IfOk result (λ change. (before : List Block)
        → IsQuoted limit before block.now.unit slot.old
        → change ≡ block_change limit (unit_history block.now.unit before) block.now) }
{
    match slot {
        Some(quoted) => quoted.hear(block, lines),
        None => {
            let mut quoted = QuotedUnit::make(alloc, limit)?;
            // It is dropped by calls: a function that drops one itself takes long to prove.
            match quoted.hear(block, lines) {
                Ok(change) => {
                    drop(slot.replace(quoted));
                    Ok(change)
                }
                Err(error) => {
                    drop(quoted);
                    Err(error)
                }
            }
        }
    }
}

impl QuotedUnits {
    /// No unit was heard of yet. Each client will hold at most `limit` messages.
    pub fn make(alloc: Global, limit: HoldLimit) -> Result<QuotedUnits, OutOfMemory>
        ensures limit { IfOk result (λ units. units.limit ≡ limit) }
        ensures heard { IfOk result (λ units. HaveQuoted units []) }
    {
        let units = UnitTable::make(alloc, limit)?;
        Ok(QuotedUnits { units })
    }

    /// Hands a block to its unit, and appends what each message that is applied changes of the best
    /// prices.
    ///
    /// After OutOfMemory that unit stands for nothing any more.
    pub fn hear(
        &mut self,
        alloc: Global,
        block: &BlockView<'_>,
        lines: &mut QuoteLines,
    ) -> Result<Change, OutOfMemory>
        ensures limit { self.new.limit ≡ self.old.limit }
        // Whatever blocks came before, the units then stand for these with the block after them.
        ensures heard { OnOk result ((before : List Block)
            → HaveQuoted self.old before → HaveQuoted self.new (block.now ∷ before)) }
        // For every venue of which the unit's blocks up to this one speak, what is appended are the
        // block's quotes.
        ensures quotes { OnOk result
            ((before : List Block) (Image : List Raw → ℕ → List Raw) (V : List Raw)
            → HaveQuoted self.old before
            → Honest Image V (unit_history block.now.unit (block.now ∷ before))
            → lines.new.items ≡ lines.old.items ++ quotes_of_block self.old.limit
            V (unit_history block.now.unit before) block.now) }
        ensures change { IfOk result (λ change. (before : List Block)
            → HaveQuoted self.old before
            → change ≡ block_change self.old.limit (unit_history block.now.unit before) block.now) }
    {
        let limit = self.units.limit();
        let change = hear_at(alloc, limit, self.units.place_of(block), block, lines)?;
        Ok(change)
    }
}
