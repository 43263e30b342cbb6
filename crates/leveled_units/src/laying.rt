//! Levels laid anew, from the open orders of a book.

ghost use Rattle.std.specs.Prelude.{IfOk, IsErr};
ghost use Rattle.std.specs.Option.{IsSome};
ghost use Rattle.pitch_model.specs.Levels.{best, level};
ghost use Rattle.leveled_units.specs.BestFirst.{TellsLevels};
ghost use Rattle.leveled_units.specs.layers.Leveled.{shares_among};
ghost use Rattle.best_quotes.specs.Leveling.{Has};

use crate::best_first::{LevelList, append_levels};
use best_quotes::{Levels, put_order};
use indexmap::IndexMap;
use order_book::{OrderList, UnitBook};
use pitch_fields::{OutOfMemory, Side, Symbol};
use pitch_messages::Order;
use std::alloc::Global;

// The levels of some orders.
fn lay_orders(alloc: Global, orders: &[Order]) -> Result<Levels, OutOfMemory>
    ensures { IfOk result (λ levels. Has levels.entries (shares_among orders.now)) }
{
    let mut levels = IndexMap::new(alloc);
    'orders: for order in orders {
        put_order(&mut levels, &Some(*order))?;
    }
    Ok(levels)
}

// The levels of a book.
pub(crate) fn lay_book(alloc: Global, book: &UnitBook) -> Result<Levels, OutOfMemory>
    ensures { IfOk result (λ levels. Has levels.entries (level book.now.book)) }
{
    let mut orders = OrderList::make(alloc);
    book.orders_by_id(&mut orders)?;
    let levels = lay_orders(alloc, orders.as_slice())?;
    Ok(levels)
}

/// Appends the levels of a symbol on a side of a book, the best first, so many at most, and answers
/// how many there are. They are laid for this answer. A side that has no order wants no memory.
pub fn lay_best_first(
    alloc: Global,
    book: &UnitBook,
    symbol: Symbol,
    side: Side,
    most: usize,
    out: &mut LevelList,
) -> Result<usize, OutOfMemory>
    ensures levels { IfOk result (TellsLevels book.now.book symbol side most
        out.old.items out.new.items) }
    ensures memory { IsErr result → IsSome (best book.now.book symbol side) }
{
    let _orders = book.len();
    if book.best(symbol, side).is_none() {
        return Ok(0);
    }
    let levels = lay_book(alloc, book)?;
    let count = append_levels(&levels, symbol, side, most, out)?;
    Ok(count)
}
