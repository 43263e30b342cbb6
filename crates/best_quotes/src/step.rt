//! One message applied to a book and its levels, and the best prices that it changed.

ghost use Rattle.std.specs.Prelude.{◌≡◌, ◌<◌, OnOk};
ghost use Rattle.std.specs.FinMap as map;
ghost use Rattle.pitch_messages.specs.Raw.{IsRaw};
ghost use Rattle.order_book.specs.Standing.{most_orders};
ghost use Rattle.pitch_model.specs.Book.{IsBook, after};
ghost use Rattle.best_quotes.specs.layers.Turning.{Turns, TurnsLevels};

use crate::bests::QuoteList;
use crate::clearing::turn_all;
use crate::levels::Levels;
use crate::steps::turn_order;
use order_book::{Turn, UnitBook};
use pitch_fields::OutOfMemory;
use std::alloc::Global;

// Does to the levels of a book what a message did to its orders, and tells the changes.
pub(crate) fn turn_levels(
    alloc: Global,
    levels: &mut Levels,
    turn: &Turn,
    told: &mut QuoteList,
) -> Result<(), OutOfMemory>
    ensures { OnOk result (TurnsLevels turn.now
        levels.old.entries levels.new.entries told.old.items told.new.items) }
{
    match turn {
        Turn::None => Ok(()),
        Turn::One { before, now } => {
            turn_order(levels, before, now, told)?;
            Ok(())
        }
        Turn::All => {
            turn_all(alloc, levels, told)?;
            Ok(())
        }
    }
}

// Does to a book and its levels what a message says, and tells the changes.
pub(crate) fn apply(
    alloc: Global,
    book: &mut UnitBook,
    levels: &mut Levels,
    raw: &[u8],
    told: &mut QuoteList,
) -> Result<(), OutOfMemory>
    requires raw { IsRaw raw.now }
    requires few { map.len book.old.book.orders < most_orders }
    ensures book { OnOk result (book.new.book ≡ after book.old.book raw.now) }
    ensures turns { OnOk result (Turns book.old.book book.new.book
        levels.old.entries levels.new.entries told.old.items told.new.items) }
    ensures is_book { IsBook book.old.book → IsBook book.new.book }
{
    let turn = book.turn_bytes(raw)?;
    turn_levels(alloc, levels, &turn, told)?;
    Ok(())
}
