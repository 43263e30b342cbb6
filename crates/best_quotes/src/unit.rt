//! One unit with quotes: its client, and beside it the price levels of the client's book.

ghost use Rattle.std.specs.Prelude.{◌≡◌, ℕ, List, [], OnOk, IfOk};
ghost use Rattle.pitch_model.specs.History.{Entry};
ghost use Rattle.heard_items.specs.Changes.{block_change};
ghost use Rattle.best_quotes.specs.layers.Hearing.{StandsOn, Quotes};
ghost use Rattle.best_quotes.specs.Stands.{Stands};

use crate::hearing::hear_block;
use crate::levels::Levels;
use crate::lines::QuoteLines;
use client_core::{Change, UnitClient};
use indexmap::IndexMap;
use order_book::TurnList;
use pitch_fields::{HoldLimit, OutOfMemory};
use std::alloc::Global;
use unit_packets::BlockView;

/// A client of one unit with the open shares of its book by symbol, side and price, in order.
///
/// After OutOfMemory it stands for nothing any more.
#[derive(Drop)]
pub struct QuotedUnit {
    pub(crate) alloc: Global,
    pub(crate) client: UnitClient,
    pub(crate) levels: Levels,
    // what the messages that the last block applied did to the orders
    pub(crate) turns: TurnList,
}

impl QuotedUnit {
    /// A unit that has heard nothing. Its client will hold at most `limit` messages.
    pub fn make(alloc: Global, limit: HoldLimit) -> Result<QuotedUnit, OutOfMemory>
        ensures { IfOk result (λ unit. Stands unit limit []) }
    {
        let client = UnitClient::make(alloc, limit)?;
        Ok(QuotedUnit {
            alloc,
            client,
            levels: IndexMap::new(alloc),
            turns: TurnList::make(alloc),
        })
    }

    /// Hears a block, and appends what each message that it applies changes of the best prices.
    pub fn hear(
        &mut self,
        block: &BlockView<'_>,
        lines: &mut QuoteLines,
    ) -> Result<Change, OutOfMemory>
        // Whatever history the unit stood for, it now stands for that history and this block.
        ensures stands { OnOk result (StandsOn self.old self.new block.now) }
        // Of any venue of which that history speaks, the lines are those of the block.
        ensures quotes { OnOk result (Quotes self.old lines.old.items lines.new.items block.now) }
        // The answer is what the block changes, as of a client alone.
        ensures change { IfOk result (λ change. (H : ℕ) (E : List Entry)
            → Stands self.old H E → change ≡ block_change H E block.now) }
    {
        let sequence = block.header().sequence;
        let change = hear_block(
            self.alloc,
            &mut self.client,
            &mut self.levels,
            sequence,
            block.raws(),
            &mut self.turns,
            lines,
        )?;
        Ok(change)
    }
}
