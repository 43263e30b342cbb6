//! How an order that becomes another moves shares between levels, sides and symbols.

ghost use Rattle.std.specs.Prelude.{◌≡◌, OnOk, Some, None};
ghost use Rattle.std.specs.Ordering.{nat_cmp};
ghost use Rattle.std.specs.Cmp.Lexicographic.{slice_cmp};
ghost use Rattle.std.specs.declared.cmp.Ordering.TheVariants.{Less};
ghost use Rattle.best_quotes.specs.Leveling.{IsOn, MovesLevels};
ghost use Rattle.best_quotes.specs.layers.Turning.{TurnsOrder, IsOf, IsOfTwo};

use crate::bests::{QuoteList, bests_of, tell, tell_both};
use crate::levels::{Levels, turn_side};
use crate::quote::Quote;
use pitch_fields::{OutOfMemory, Side, Symbol};
use pitch_messages::Order;
use std::cmp::Ordering;

// An order of a symbol on a side becomes another one of it.
fn turn_on(
    levels: &mut Levels,
    symbol: Symbol,
    side: Side,
    before: &Option<Order>,
    now: &Option<Order>,
    told: &mut QuoteList,
) -> Result<(), OutOfMemory>
    ensures { OnOk result (IsOn symbol side before.now → IsOn symbol side now.now
        → TurnsOrder before.now now.now levels.old.entries levels.new.entries
        told.old.items told.new.items) }
{
    let bests = turn_side(levels, symbol, side, before, now)?;
    let quote = Quote {
        symbol,
        side,
        best: bests.1,
    };
    tell(told, bests.0, quote)?;
    Ok(())
}

// Takes the shares of an order away, where there is one.
fn take_order(levels: &mut Levels, order: &Option<Order>) -> Result<(), OutOfMemory>
    ensures { OnOk result (MovesLevels order.now None levels.old.entries levels.new.entries) }
{
    match order {
        Some(gone) => {
            turn_side(levels, gone.symbol, gone.side, order, &None)?;
            Ok(())
        }
        None => Ok(()),
    }
}

/// Adds the shares of an order to the levels, where there is one.
///
/// After OutOfMemory nothing is said of the levels.
pub fn put_order(levels: &mut Levels, order: &Option<Order>) -> Result<(), OutOfMemory>
    ensures { OnOk result (MovesLevels None order.now levels.old.entries levels.new.entries) }
{
    match order {
        Some(come) => {
            turn_side(levels, come.symbol, come.side, &None, order)?;
            Ok(())
        }
        None => Ok(()),
    }
}

// Takes the shares of one order away and puts those of another.
fn move_shares(
    levels: &mut Levels,
    before: &Option<Order>,
    now: &Option<Order>,
) -> Result<(), OutOfMemory>
    ensures { OnOk result
        (MovesLevels before.now now.now levels.old.entries levels.new.entries) }
{
    take_order(levels, before)?;
    put_order(levels, now)?;
    Ok(())
}

// An order of a symbol becomes another one of it.
fn turn_one(
    levels: &mut Levels,
    symbol: Symbol,
    before: &Option<Order>,
    now: &Option<Order>,
    told: &mut QuoteList,
) -> Result<(), OutOfMemory>
    ensures { OnOk result (IsOf symbol before.now → IsOf symbol now.now
        → TurnsOrder before.now now.now levels.old.entries levels.new.entries
        told.old.items told.new.items) }
{
    let bests = bests_of(levels, symbol);
    move_shares(levels, before, now)?;
    tell_both(told, symbol, bests, bests_of(levels, symbol))?;
    Ok(())
}

// An order of one of two symbols becomes another one of them. The symbols stand in their order.
fn turn_two(
    levels: &mut Levels,
    first: Symbol,
    second: Symbol,
    before: &Option<Order>,
    now: &Option<Order>,
    told: &mut QuoteList,
) -> Result<(), OutOfMemory>
    requires { slice_cmp nat_cmp first second ≡ Less }
    ensures { OnOk result (IsOfTwo first second before.now → IsOfTwo first second now.now
        → TurnsOrder before.now now.now levels.old.entries levels.new.entries
        told.old.items told.new.items) }
{
    let bests_first = bests_of(levels, first);
    let bests_second = bests_of(levels, second);
    move_shares(levels, before, now)?;
    tell_both(told, first, bests_first, bests_of(levels, first))?;
    tell_both(told, second, bests_second, bests_of(levels, second))?;
    Ok(())
}

// An order becomes another, which may be one of another symbol.
fn turn_both(
    levels: &mut Levels,
    order: &Order,
    other: &Order,
    before: &Option<Order>,
    now: &Option<Order>,
    told: &mut QuoteList,
) -> Result<(), OutOfMemory>
    requires before { before.now ≡ Some order.now }
    requires now { now.now ≡ Some other.now }
    ensures { OnOk result
        (TurnsOrder before.now now.now levels.old.entries levels.new.entries
        told.old.items told.new.items) }
{
    match order.symbol.bytes().cmp(&other.symbol.bytes()) {
        Ordering::Less => {
            turn_two(levels, order.symbol, other.symbol, before, now, told)?;
            Ok(())
        }
        Ordering::Equal => {
            turn_one(levels, order.symbol, before, now, told)?;
            Ok(())
        }
        Ordering::Greater => {
            turn_two(levels, other.symbol, order.symbol, before, now, told)?;
            Ok(())
        }
    }
}

// An order becomes another. It may be one of another symbol or side, where an add takes an open id.
pub(crate) fn turn_order(
    levels: &mut Levels,
    before: &Option<Order>,
    now: &Option<Order>,
    told: &mut QuoteList,
) -> Result<(), OutOfMemory>
    ensures { OnOk result
        (TurnsOrder before.now now.now levels.old.entries levels.new.entries
        told.old.items told.new.items) }
{
    match before {
        None => match now {
            None => Ok(()),
            Some(order) => {
                turn_on(levels, order.symbol, order.side, before, now, told)?;
                Ok(())
            }
        },
        Some(order) => match now {
            None => {
                turn_on(levels, order.symbol, order.side, before, now, told)?;
                Ok(())
            }
            Some(other) => {
                if order.symbol == other.symbol && order.side == other.side {
                    turn_on(levels, order.symbol, order.side, before, now, told)?;
                } else {
                    turn_both(levels, order, other, before, now, told)?;
                }
                Ok(())
            }
        },
    }
}
