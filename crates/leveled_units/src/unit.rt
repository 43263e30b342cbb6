//! A client with the price levels of its book beside it, for best prices at any time.

ghost use Rattle.std.specs.Prelude.{◌≡◌, ◌≤◌, ◌+◌, ℕ, true, false, List, [], length, fold};
ghost use Rattle.std.specs.Prelude.{OnOk, OnErr, IfOk, IsOk, IsErr, IfSome};
ghost use Rattle.std.specs.Option.{IsSome};
ghost use Rattle.pitch_model.specs.Book.{Book, IsBook, after};
ghost use Rattle.pitch_model.specs.History.{Raw};
ghost use Rattle.pitch_model.specs.Levels.{best, level};
ghost use Rattle.heard_items.specs.HeardBlocks.{heard_block};
ghost use Rattle.order_book.specs.Turns.{turns_of};
ghost use Rattle.client_core.specs.Client.{IsAsBefore, KeepsRoom, current_book, held_number};
ghost use Rattle.client_core.specs.Client.{spare_of};
ghost use Rattle.client_core.specs.layers.Hearing.{Changes, HearsBlock, KeepsBlock, OfHistory};
ghost use Rattle.client_core.specs.layers.Hearing.{OfReached};
ghost use Rattle.client_core.specs.Tracks.{Tracks, Keeps};
ghost use Rattle.unit_clients.specs.Room.{HearsFreely};
ghost use Rattle.leveled_units.specs.BestFirst.{TellsLevels};
ghost use Rattle.leveled_units.specs.layers.Leveled.{AreLevels};
ghost use Rattle.best_quotes.specs.LastBest.{quoted};
ghost use Rattle.leveled_units.specs.Hearing.{TurnsBook, TellsAnew, Advances, IsIdle};

use crate::best_first::{LevelList, append_levels};
use crate::laying::{lay_best_first, lay_book};
use best_quotes::{Levels, QuoteLines, best_level, level_at, turn_each};
use client_core::{Change, UnitClient};
use indexmap::IndexMap;
use order_book::{Turn, TurnList, UnitBook};
use pitch_fields::{HoldLimit, OutOfMemory, Price, Side, Symbol};
use std::alloc::Global;
use std::marker::Model;
use unit_packets::BlockView;

/// What a block changed, and whether the quotes of the messages that were applied are told. They
/// are not where memory for them or for their levels ran out.
#[derive(Clone, Copy)]
pub struct Heard {
    pub change: Change,
    pub told: bool,
}

/// A client of one unit with the open shares of its book by symbol, side and price, in order.
///
/// It stands for whatever its client stands for. Levels are kept where they were asked for, and go
/// where memory for them runs out; without them a best price is looked for among all open orders.
/// They are laid anew where memory is taken ahead, or quotes are asked for.
#[derive(Drop)]
pub struct LeveledUnit {
    alloc: Global,
    client: UnitClient,
    // whether levels are kept where there is memory for them
    leveled: bool,
    levels: Option<Levels>,
    // what the messages that the last block applied did to the orders, and to the best prices
    turns: TurnList,
    lines: QuoteLines,
}

impl Model for LeveledUnit {
    ghost use Rattle.client_core.specs.Client.{current_book};
    ghost use Rattle.client_core.specs.contracts.client.UnitClient as unit_client;
    ghost use Rattle.client_core.specs.declared.client.UnitClient.{UnitClient};
    ghost use Rattle.leveled_units.specs.layers.Leveled.{AreLevels};

    ghost Value = { UnitClient };

    ghost coded = { unit_client.the_row.coded };

    ghost view = { λ u. u.client };

    ghost invariant = { λ u. AreLevels u.levels (current_book u.client) };
}

// Empty levels, where any are to be kept. They take no memory.
fn first_levels(alloc: Global, leveled: bool) -> Option<Levels>
    ensures { IfSome result (λ levels. levels.entries ≡ []) }
{
    if leveled {
        Some(IndexMap::new(alloc))
    } else {
        None
    }
}

// Hands a block to a client.
fn hear_alone(client: &mut UnitClient, block: &BlockView<'_>) -> Result<Change, OutOfMemory>
    ensures tracks { OnOk result (HearsBlock client.old client.new block.now) }
    ensures keeps { OnOk result (KeepsBlock client.old client.new block.now) }
    ensures change { IfOk result (λ change. Changes client.old change block.now) }
    ensures err { OnErr result (IsAsBefore client.old client.new) }
    ensures memory { HearsFreely client.old block.now → IsOk result }
    ensures room { OnOk result (KeepsRoom client.old client.new (length block.now.raws)) }
{
    client.hear_block(block.header().sequence, block.raws(), &mut ())
}

// Hands a block to a client, and fills `turns` anew with what the messages that it applies do to
// the orders.
fn hear_turned(
    client: &mut UnitClient,
    turns: &mut TurnList,
    block: &BlockView<'_>,
) -> Result<Change, OutOfMemory>
    ensures tracks { OnOk result (HearsBlock client.old client.new block.now) }
    ensures keeps { OnOk result (KeepsBlock client.old client.new block.now) }
    ensures change { IfOk result (λ change. Changes client.old change block.now) }
    ensures turned { OnOk result (TurnsBook client.old client.new turns.new.items) }
    ensures venues { OnOk result (OfReached client.old (heard_block block.now)
        (λ raws. turns.new.items ≡ turns_of (current_book client.old) raws)) }
    ensures err { OnErr result (IsAsBefore client.old client.new) }
    ensures memory { HearsFreely client.old block.now
        → length block.now.raws + held_number client.old ≤ turns.old.spare → IsOk result }
    ensures idle { IsIdle block.now → IsOk result }
    ensures room { OnOk result (KeepsRoom client.old client.new (length block.now.raws)) }
{
    turns.truncate(0);
    client.hear_block(block.header().sequence, block.raws(), turns)
}

// Turns the levels of a book by what messages did to its orders, and fills `lines` anew with what
// each changes. Where memory runs out the levels go. It answers whether all is told.
fn follow(
    alloc: Global,
    levels: &mut Option<Levels>,
    reach: u32,
    turns: &[Turn],
    lines: &mut QuoteLines,
) -> bool
    requires within { reach + length turns.now ≤ 4294967295 }
    ensures levels { (book : Book) (raws : List Raw) → IsBook book → turns.now ≡ turns_of book raws
        → AreLevels levels.old book → AreLevels levels.new (fold after book raws) }
    ensures told { result ≡ true → (book : Book) (raws : List Raw) → IsBook book
        → turns.now ≡ turns_of book raws → AreLevels levels.old book
        → lines.new.items ≡ quoted (reach + 1) book raws }
    ensures none { turns.now ≡ [] → result ≡ true }
{
    lines.truncate(0);
    if turns.is_empty() {
        return true;
    }
    let Some(mut kept) = levels.take() else {
        return false;
    };
    match turn_each(alloc, &mut kept, reach, turns, lines) {
        Ok(()) => {
            drop(levels.replace(kept));
            true
        }
        Err(_) => {
            drop(kept);
            false
        }
    }
}

// Whether a block may have messages to be applied.
fn may_apply(block: &BlockView<'_>) -> bool
    ensures { IsIdle block.now → result ≡ false }
{
    block.header().count != 0 && block.header().sequence != 0
}

// Lays levels of a book where they are wanted and there are none.
fn lay_missing(
    alloc: Global,
    book: &UnitBook,
    levels: &mut Option<Levels>,
    wanted: bool,
) -> Result<(), OutOfMemory>
    ensures levels { AreLevels levels.old book.now.book → AreLevels levels.new book.now.book }
    ensures memory { wanted ≡ false → IsOk result }
{
    if !wanted || levels.is_some() {
        return Ok(());
    }
    let laid = lay_book(alloc, book)?;
    *levels = Some(laid);
    Ok(())
}

// Hands a block to a client, turns the levels of its book, and fills `lines` anew with the quotes.
fn hear_followed(
    alloc: Global,
    client: &mut UnitClient,
    levels: &mut Option<Levels>,
    turns: &mut TurnList,
    lines: &mut QuoteLines,
    block: &BlockView<'_>,
) -> Result<Heard, OutOfMemory>
    ensures levels { AreLevels levels.old (current_book client.old)
        → AreLevels levels.new (current_book client.new) }
    ensures tracks { OnOk result (HearsBlock client.old client.new block.now) }
    ensures keeps { OnOk result (KeepsBlock client.old client.new block.now) }
    ensures change { IfOk result (λ heard. Changes client.old heard.change block.now) }
    ensures quotes { IfOk result (λ heard. heard.told ≡ true
        → AreLevels levels.old (current_book client.old)
        → TellsAnew client.old lines.new.items block.now) }
    ensures untold { IfOk result (λ heard. heard.told ≡ false
        → OfHistory client.old (λ H E. Advances H E block.now)) }
    ensures err { OnErr result (IsAsBefore client.old client.new) }
    ensures memory { HearsFreely client.old block.now
        → length block.now.raws + held_number client.old ≤ turns.old.spare → IsOk result }
    ensures idle { IsIdle block.now → IsOk result }
    ensures room { OnOk result (KeepsRoom client.old client.new (length block.now.raws)) }
{
    let reach = client.reach();
    let _orders = client.book().len();
    let change = hear_turned(client, turns, block)?;
    let _reached = client.reach();
    let told = follow(alloc, levels, reach, turns.as_slice(), lines);
    Ok(Heard { change, told })
}

// Hands a block to a client, and turns the levels of its book, where there are any and there is
// memory for that.
fn hear(
    alloc: Global,
    client: &mut UnitClient,
    levels: &mut Option<Levels>,
    turns: &mut TurnList,
    lines: &mut QuoteLines,
    block: &BlockView<'_>,
) -> Result<Change, OutOfMemory>
    ensures levels { AreLevels levels.old (current_book client.old)
        → AreLevels levels.new (current_book client.new) }
    ensures tracks { OnOk result (HearsBlock client.old client.new block.now) }
    ensures keeps { OnOk result (KeepsBlock client.old client.new block.now) }
    ensures change { IfOk result (λ change. Changes client.old change block.now) }
    ensures err { OnErr result (IsAsBefore client.old client.new) }
    ensures memory { HearsFreely client.old block.now → IsOk result }
    ensures room { OnOk result (KeepsRoom client.old client.new (length block.now.raws)) }
{
    if levels.is_none() {
        return hear_alone(client, block);
    }
    let wanted = block.header().count as usize + client.held() as usize;
    match turns.reserve(wanted) {
        Ok(()) => {
            let heard = hear_followed(alloc, client, levels, turns, lines, block)?;
            Ok(heard.change)
        }
        Err(_) => {
            drop(levels.take());
            hear_alone(client, block)
        }
    }
}

impl LeveledUnit {
    /// A unit that has heard nothing, with levels where it is `leveled`. Its client will hold at
    /// most `limit` messages.
    pub fn make(alloc: Global, limit: HoldLimit, leveled: bool) -> Result<LeveledUnit, OutOfMemory>
        ensures tracks { IfOk result (λ unit. Tracks unit limit []) }
        // What it has heard, which is nothing, is of every venue.
        ensures keeps { IfOk result (λ unit. (V : List Raw) → Keeps unit V) }
    {
        let client = UnitClient::make(alloc, limit)?;
        Ok(LeveledUnit {
            alloc,
            client,
            leveled,
            levels: first_levels(alloc, leveled),
            turns: TurnList::make(alloc),
            lines: QuoteLines::make(alloc),
        })
    }

    /// Hears a block, as a client alone does.
    pub fn hear(&mut self, block: &BlockView<'_>) -> Result<Change, OutOfMemory>
        // A client that stood for a history then stands for it with the block after it.
        ensures tracks { OnOk result (HearsBlock self.old self.new block.now) }
        ensures keeps { OnOk result (KeepsBlock self.old self.new block.now) }
        ensures change { IfOk result (λ change. Changes self.old change block.now) }
        ensures err { OnErr result (IsAsBefore self.old self.new) }
        ensures memory { HearsFreely self.old block.now → IsOk result }
        ensures room { OnOk result (KeepsRoom self.old self.new (length block.now.raws)) }
    {
        hear(
            self.alloc,
            &mut self.client,
            &mut self.levels,
            &mut self.turns,
            &mut self.lines,
            block,
        )
    }

    /// Hears a block, and fills `lines` anew with what each message that it applies changes of the
    /// best prices. Where it has messages, levels are laid where there are none, and kept from then
    /// on. After an error nothing was heard.
    pub fn hear_quoted(
        &mut self,
        block: &BlockView<'_>,
        lines: &mut QuoteLines,
    ) -> Result<Heard, OutOfMemory>
        ensures tracks { OnOk result (HearsBlock self.old self.new block.now) }
        ensures keeps { OnOk result (KeepsBlock self.old self.new block.now) }
        ensures change { IfOk result (λ heard. Changes self.old heard.change block.now) }
        ensures err { OnErr result (IsAsBefore self.old self.new) }
        // Of any venue to which the client keeps, the lines are those of the block.
        ensures quotes { IfOk result
            (λ heard. heard.told ≡ true → TellsAnew self.old lines.new.items block.now) }
        // No error comes for a heartbeat, nor for a block without a sequence.
        ensures memory { IsIdle block.now → IsOk result }
        // Memory that was taken ahead for this block and for more messages still serves those.
        ensures room { OnOk result (KeepsRoom self.old self.new (length block.now.raws)) }
        // They are told wherever no message is applied.
        ensures untold { IfOk result (λ heard. heard.told ≡ false
            → OfHistory self.old (λ H E. Advances H E block.now)) }
    {
        let wanted = may_apply(block);
        lay_missing(self.alloc, self.client.book(), &mut self.levels, wanted)?;
        hear_followed(
            self.alloc,
            &mut self.client,
            &mut self.levels,
            &mut self.turns,
            lines,
            block,
        )
    }

    /// Takes memory ahead for so many messages, where the book may have so many more orders. Levels
    /// that were asked for and went are laid anew.
    pub fn reserve(&mut self, messages: u32) -> Result<(), OutOfMemory>
        ensures same { IsAsBefore self.old self.new }
        ensures room { OnOk result (messages ≤ spare_of self.new) }
    {
        if messages > u32::MAX - self.client.book().len() {
            return Err(OutOfMemory);
        }
        if self.leveled {
            lay_missing(self.alloc, self.client.book(), &mut self.levels, true)?;
        }
        self.client.reserve(messages)
    }

    /// The client alone.
    pub fn client(&self) -> &UnitClient
        ensures { result.now ≡ self.now }
    {
        &self.client
    }

    /// The best price of a symbol on a side, with its shares; None exactly where the side is empty.
    pub fn best(&self, symbol: Symbol, side: Side) -> Option<(Price, u64)>
        ensures { result ≡ best (current_book self.now) symbol side }
    {
        let _orders = self.client.book().len();
        match &self.levels {
            Some(levels) => best_level(levels, symbol, side),
            None => self.client.book().best(symbol, side),
        }
    }

    /// The shares of the open orders for a symbol on a side at a price.
    pub fn level(&self, symbol: Symbol, side: Side, price: Price) -> u64
        ensures { result ≡ level (current_book self.now) symbol side price }
    {
        match &self.levels {
            Some(levels) => level_at(levels, symbol, side, price),
            None => self.client.book().level(symbol, side, price),
        }
    }

    /// Appends the levels of a symbol on a side, the best first, so many at most, and answers how
    /// many there are. Where no levels are kept they are laid for this answer. A side that has no
    /// order wants no memory.
    pub fn levels_best_first(
        &self,
        symbol: Symbol,
        side: Side,
        most: usize,
        out: &mut LevelList,
    ) -> Result<usize, OutOfMemory>
        ensures levels { IfOk result (TellsLevels (current_book self.now) symbol side most
            out.old.items out.new.items) }
        ensures memory { IsErr result → IsSome (best (current_book self.now) symbol side) }
    {
        let Some(levels) = &self.levels else {
            return lay_best_first(self.alloc, self.client.book(), symbol, side, most, out);
        };
        let _orders = self.client.book().len();
        if self.best(symbol, side).is_none() {
            return Ok(0);
        }
        let count = append_levels(levels, symbol, side, most, out)?;
        Ok(count)
    }
}
