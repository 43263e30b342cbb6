//! What a Unit Clear does to the levels: all go, and each symbol loses its best prices.

ghost use Rattle.std.specs.Prelude.{◌≡◌, ◌++◌, OnOk, IfOk};
ghost use Rattle.std.specs.Ordering.{nat_cmp};
ghost use Rattle.std.specs.Cmp.Lexicographic.{slice_cmp};
ghost use Rattle.std.specs.BTreeSet.{IsOrdered};
ghost use Rattle.pitch_model.specs.Book.{Book, IsBook};
ghost use Rattle.pitch_model.specs.Levels.{level};
ghost use Rattle.best_quotes.specs.Leveling.{Has};
ghost use Rattle.best_quotes.specs.layers.Turning.{gone, no_bests, HasSymbols, AreGone, Turns};

use crate::bests::{Bests, QuoteList, bests_of, tell_both};
use crate::levels::Levels;
use pitch_fields::{OutOfMemory, Symbol};
use std::alloc::Global;
use std::collections::BTreeSet;

// The symbols for which anything is open.
fn symbols_of(alloc: Global, levels: &Levels) -> Result<BTreeSet<[u8; 8]>, OutOfMemory>
    ensures { IfOk result (λ symbols. HasSymbols levels.now.entries symbols) }
{
    let mut symbols = BTreeSet::new(alloc);
    for symbol in levels.keys() {
        symbols.insert(*symbol)?;
    }
    Ok(symbols)
}

// Neither side has an order.
fn no_bests() -> Bests
    ensures { result ≡ no_bests }
{
    Bests {
        buy: None,
        sell: None,
    }
}

// Tells of each symbol that its orders are gone.
fn tell_gone(
    levels: &Levels,
    symbols: &BTreeSet<[u8; 8]>,
    told: &mut QuoteList,
) -> Result<(), OutOfMemory>
    ensures ordered { IsOrdered (slice_cmp nat_cmp) symbols.now }
    ensures told { OnOk result ((book : Book)
        → IsBook book → Has levels.now.entries (level book)
        → told.new.items ≡ told.old.items ++ gone book symbols.now.keys) }
{
    for symbol in symbols.iter() {
        let symbol = Symbol::from_eight(*symbol);
        tell_both(told, symbol, bests_of(levels, symbol), no_bests())?;
    }
    Ok(())
}

// All orders go.
pub(crate) fn turn_all(
    alloc: Global,
    levels: &mut Levels,
    told: &mut QuoteList,
) -> Result<(), OutOfMemory>
    ensures { OnOk result ((old new : Book) → AreGone new
        → Turns old new levels.old.entries levels.new.entries told.old.items told.new.items) }
{
    let symbols = symbols_of(alloc, levels)?;
    tell_gone(levels, &symbols, told)?;
    levels.truncate(0);
    Ok(())
}
