//! An order book with its price levels beside it, which tells each change of a best price.

ghost use Rattle.std.specs.Prelude.{◌≡◌, ◌<◌, ◌++◌, ◌↔◌, true, false, OnOk, OnErr, IsErr, IsTrue};
ghost use Rattle.std.specs.Prelude.{IsFalse};
ghost use Rattle.std.specs.FinMap as map;
ghost use Rattle.pitch_messages.specs.Raw.{IsRaw};
ghost use Rattle.order_book.specs.Standing.{most_orders};
ghost use Rattle.pitch_model.specs.Book.{empty_book, after};
ghost use Rattle.pitch_model.specs.Levels.{best};
ghost use Rattle.best_quotes.specs.Changes.{changes};

use crate::bests::QuoteList;
use crate::levels::{Levels, best_level};
use crate::step;
use indexmap::IndexMap;
use order_book::UnitBook;
use pitch_fields::{OutOfMemory, Price, Side, Symbol};
use pitch_messages::Raw;
use std::alloc::Global;
use std::marker::Model;

/// A book with the open shares by symbol, side and price, in order.
///
/// After OutOfMemory a ladder is spent: it then answers that to each message.
#[derive(Drop)]
pub struct Ladder {
    alloc: Global,
    book: UnitBook,
    levels: Levels,
    spent: bool,
}

impl Model for Ladder {
    ghost use Rattle.best_quotes.specs.layers.Ladders.{Ladder, IsLadder, ladder_code};

    ghost Value = { Ladder };

    ghost coded = { ladder_code };

    ghost view = { λ l. record { book = l.book; spent = l.spent } };

    ghost invariant = { λ l. IsLadder l.book.book l.levels.entries l.spent };
}

impl Ladder {
    /// The empty book. It takes no memory.
    pub fn make(alloc: Global) -> Ladder
        ensures book { result.book.book ≡ empty_book }
        ensures ready { result.spent ≡ false }
    {
        Ladder {
            alloc,
            book: UnitBook::make(alloc),
            levels: IndexMap::new(alloc),
            spent: false,
        }
    }

    /// The best price of a symbol on a side, with its shares; None exactly where the side is empty.
    pub fn best(&self, symbol: Symbol, side: Side) -> Option<(Price, u64)>
        requires { self.now.spent ≡ false }
        ensures { result ≡ best self.now.book.book symbol side }
    {
        best_level(&self.levels, symbol, side)
    }

    /// Whether it has as many orders as a book has at most, 4,294,967,295. Where it has not,
    /// `apply` may be asked.
    pub fn is_full(&self) -> bool
        ensures full { IsTrue result ↔ (map.len self.now.book.book.orders ≡ most_orders) }
        ensures room { IsFalse result → map.len self.now.book.book.orders < most_orders }
    {
        self.book.len() == u32::MAX
    }

    /// Does what a raw message says, given its bytes, and appends the changes of the best prices:
    /// for each symbol and side whose best became another the new one, by rising symbol and to buy
    /// before to sell.
    ///
    /// After OutOfMemory the ladder is spent, and `quotes` is as before.
    pub fn apply_bytes(&mut self, raw: &[u8], quotes: &mut QuoteList) -> Result<(), OutOfMemory>
        requires raw { IsRaw raw.now }
        requires few { map.len self.old.book.book.orders < most_orders }
        ensures book { OnOk result (self.new.book.book ≡ after self.old.book.book raw.now) }
        ensures quotes { OnOk result (quotes.new.items
            ≡ quotes.old.items ++ changes self.old.book.book self.new.book.book) }
        ensures ready { OnOk result (self.new.spent ≡ false) }
        ensures spent { OnErr result (self.new.spent ≡ true) }
        ensures err { OnErr result (quotes.new.items ≡ quotes.old.items) }
        ensures again { self.old.spent ≡ true → IsErr result }
    {
        if self.spent {
            return Err(OutOfMemory);
        }
        let mut told = QuoteList::make(self.alloc);
        match step::apply(self.alloc, &mut self.book, &mut self.levels, raw, &mut told) {
            Ok(()) => {}
            Err(error) => {
                self.spent = true;
                return Err(error);
            }
        }
        match quotes.append(told.into_vec()) {
            Ok(()) => Ok(()),
            Err(error) => {
                self.spent = true;
                Err(error)
            }
        }
    }

    /// Does what a raw message says, as `apply_bytes` does.
    pub fn apply(&mut self, raw: &Raw, quotes: &mut QuoteList) -> Result<(), OutOfMemory>
        requires few { map.len self.old.book.book.orders < most_orders }
        ensures book { OnOk result (self.new.book.book ≡ after self.old.book.book raw.now) }
        ensures quotes { OnOk result (quotes.new.items
            ≡ quotes.old.items ++ changes self.old.book.book self.new.book.book) }
        ensures ready { OnOk result (self.new.spent ≡ false) }
        ensures spent { OnErr result (self.new.spent ≡ true) }
        ensures err { OnErr result (quotes.new.items ≡ quotes.old.items) }
        ensures again { self.old.spent ≡ true → IsErr result }
    {
        self.apply_bytes(raw.bytes(), quotes)
    }
}
