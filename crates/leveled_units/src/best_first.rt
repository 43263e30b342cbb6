//! The levels of a symbol on a side, told the best first.

ghost use Rattle.std.specs.Prelude.{◌≡◌, ◌++◌, length, reverse, take, OnOk, IfOk};
ghost use Rattle.std.specs.Ordering.{nat_cmp};
ghost use Rattle.std.specs.BTreeMap.{IsOrdered};
ghost use Rattle.pitch_model.specs.Book.{Book, IsBook};
ghost use Rattle.pitch_model.specs.Levels.{level};
ghost use Rattle.leveled_units.specs.BestFirst.{best_first, TellsLevels};
ghost use Rattle.best_quotes.specs.Leveling.{Has};

use best_quotes::{Levels, Prices, prices_in};
use pitch_fields::{OutOfMemory, Price, Side, Symbol};
use pitch_messages::List;

/// A list of prices with their shares.
pub type LevelList = List<(Price, u64)>;

// Appends levels by rising price, so many at most.
fn append_rising(prices: &Prices, most: usize, out: &mut LevelList) -> Result<(), OutOfMemory>
    ensures { OnOk result (out.new.items ≡ out.old.items ++ take most prices.now.entries) }
{
    let mut left = prices.iter();
    'levels: for _ in 0..most {
        match left.next() {
            Some((price, shares)) => out.push((Price::from_long(*price), *shares))?,
            None => return Ok(()),
        }
    }
    Ok(())
}

// Appends levels by falling price, so many at most.
fn append_falling(prices: &Prices, most: usize, out: &mut LevelList) -> Result<(), OutOfMemory>
    ensures { OnOk result
        (out.new.items ≡ out.old.items ++ take most (reverse prices.now.entries)) }
{
    let mut left = prices.iter();
    'levels: for _ in 0..most {
        match left.next_back() {
            Some((price, shares)) => out.push((Price::from_long(*price), *shares))?,
            None => return Ok(()),
        }
    }
    Ok(())
}

// Appends levels of a side, the best first, so many at most. It answers how many there are.
fn append_side(
    prices: &Prices,
    side: Side,
    most: usize,
    out: &mut LevelList,
) -> Result<usize, OutOfMemory>
    ensures ordered { IsOrdered nat_cmp prices.now }
    ensures levels { OnOk result
        (out.new.items ≡ out.old.items ++ take most (best_first side prices.now.entries)) }
    ensures count { IfOk result (λ count. count ≡ length prices.now.entries) }
{
    let count = prices.len();
    match side {
        Side::Buy => {
            append_falling(prices, most, out)?;
            Ok(count)
        }
        Side::Sell => {
            append_rising(prices, most, out)?;
            Ok(count)
        }
    }
}

// Appends the levels of a symbol on a side of a book, the best first, so many at most. It answers
// how many there are.
pub(crate) fn append_levels(
    levels: &Levels,
    symbol: Symbol,
    side: Side,
    most: usize,
    out: &mut LevelList,
) -> Result<usize, OutOfMemory>
    ensures { IfOk result (λ count. (book : Book) → IsBook book
        → Has levels.now.entries (level book)
        → TellsLevels book symbol side most out.old.items out.new.items count) }
{
    match levels.get(&symbol.bytes()) {
        Some(depth) => {
            let count = append_side(prices_in(depth, side), side, most, out)?;
            Ok(count)
        }
        None => Ok(0),
    }
}
