//! The levels of a symbol on a side, told into the caller's array, and one of them.

ghost use Rattle.std.specs.Prelude.{◌≡◌, ◌≤◌, ℕ, List, [], length, map as mapped};
ghost use Rattle.std.specs.Option.{IsSome};
ghost use Rattle.pitch_fields.specs.Side.{side_of};
ghost use Rattle.pitch_fields.specs.declared.side.Side.{Side};
ghost use Rattle.pitch_model.specs.Book.{Book};
ghost use Rattle.pitch_model.specs.Levels.{best};
ghost use Rattle.client_core.specs.Client.{current_book};
ghost use Rattle.unit_clients.specs.Clients.{client_of};
ghost use Rattle.leveled_units.specs.BestFirst.{TellsLevels};
ghost use Rattle.pitch_c.specs.Codes as code;
ghost use Rattle.pitch_c.specs.Answers.{Answers, client_code, side_code};
ghost use Rattle.pitch_c.specs.Arrays.{filled};
ghost use Rattle.pitch_c.specs.Clients.{TellLevel, TellLevels, HasSide};
ghost use Rattle.pitch_c.specs.Lists.{ListsLevels};
ghost use Rattle.pitch_c.specs.Reports.{level_shown};

use crate::asking::find_client;
use crate::codes::{NO_CLIENT, NO_MEMORY, NO_SIDE, OK};
use crate::lists::fitting;
use crate::reports::{LevelOut, level_out};
use leveled_units::{LevelList, LeveledUnit, LeveledUnits, lay_best_first};
use order_book::UnitBook;
use pitch_fields::{Price, Side, Symbol};
use std::alloc::Global;

// Writes as many levels as fit.
fn fill_levels(levels: &[(Price, u64)], told: &mut [LevelOut])
    ensures { told.new ≡ filled (mapped level_shown levels.now) told.old }
{
    let count = fitting(levels.len(), told.len());
    'levels: for at in 0..count {
        told[at] = level_out(levels[at]);
    }
}

// Tells levels of a book that were listed.
fn write_levels(levels: &[(Price, u64)], count: usize, told: &mut [LevelOut], number: &mut u64)
    ensures { (book : Book) (symbol : List ℕ) (side : Side)
        → TellsLevels book symbol side (length told.old) [] levels.now count
        → ListsLevels book symbol side told.old told.new number.new }
{
    fill_levels(levels, told);
    *number = count as u64;
}

// Tells the levels of a symbol on a side, from those that are kept beside a book where they are.
fn list_levels(
    alloc: Global,
    client: &LeveledUnit,
    symbol: Symbol,
    side: Side,
    told: &mut [LevelOut],
    number: &mut u64,
) -> u32
    ensures levels { result ≡ code.ok
        → ListsLevels (current_book client.now) symbol side told.old told.new number.new }
    ensures kept { 1 ≤ result → (told.new ≡ told.old) × (number.new ≡ number.old) }
    ensures answer { Answers code.ok result }
    ensures memory { result ≡ code.no_memory
        → IsSome (best (current_book client.now) symbol side) }
{
    let mut levels = LevelList::make(alloc);
    match client.levels_best_first(symbol, side, told.len(), &mut levels) {
        Ok(count) => {
            write_levels(levels.as_slice(), count, told, number);
            OK
        }
        Err(_) => NO_MEMORY,
    }
}

// Tells the levels of a symbol on a side, laid from the open orders of a book.
pub(crate) fn lay_levels(
    alloc: Global,
    book: &UnitBook,
    symbol: Symbol,
    side: Side,
    told: &mut [LevelOut],
    number: &mut u64,
) -> u32
    ensures levels { result ≡ code.ok
        → ListsLevels book.now.book symbol side told.old told.new number.new }
    ensures kept { 1 ≤ result → (told.new ≡ told.old) × (number.new ≡ number.old) }
    ensures answer { Answers code.ok result }
    ensures memory { result ≡ code.no_memory → IsSome (best book.now.book symbol side) }
{
    let mut levels = LevelList::make(alloc);
    match lay_best_first(alloc, book, symbol, side, told.len(), &mut levels) {
        Ok(count) => {
            write_levels(levels.as_slice(), count, told, number);
            OK
        }
        Err(_) => NO_MEMORY,
    }
}

pub(crate) fn tell_levels(
    alloc: Global,
    units: &LeveledUnits,
    unit: u32,
    symbol: &[u8; 8],
    side: u8,
    told: &mut [LevelOut],
    number: &mut u64,
) -> u32
    ensures levels { result ≡ code.ok
        → TellLevels units.now unit symbol.now side told.old told.new number.new }
    ensures kept { 1 ≤ result → (told.new ≡ told.old) × (number.new ≡ number.old) }
    ensures answer { Answers
        (side_code (side_of side) (client_code (client_of units.now unit))) result }
    ensures memory { result ≡ code.no_memory → HasSide units.now unit symbol.now side }
{
    let Some(side) = Side::from_byte(side) else {
        return NO_SIDE;
    };
    match find_client(units, unit) {
        Some(client) => {
            let symbol = Symbol::from_eight(*symbol);
            list_levels(alloc, client, symbol, side, told, number)
        }
        None => NO_CLIENT,
    }
}

pub(crate) fn tell_level(
    units: &LeveledUnits,
    unit: u32,
    symbol: &[u8; 8],
    side: u8,
    price: u64,
    told: &mut LevelOut,
) -> u32
    ensures level { result ≡ code.ok → TellLevel units.now unit symbol.now side price told.new }
    ensures kept { 1 ≤ result → told.new ≡ told.old }
    ensures answer { result ≡ side_code (side_of side) (client_code (client_of units.now unit)) }
{
    let Some(side) = Side::from_byte(side) else {
        return NO_SIDE;
    };
    match find_client(units, unit) {
        Some(client) => {
            let price = Price::from_long(price);
            let shares = client.level(Symbol::from_eight(*symbol), side, price);
            *told = level_out((price, shares));
            OK
        }
        None => NO_CLIENT,
    }
}
