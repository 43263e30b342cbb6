//! Price levels for each symbol that has open orders, and how one order's change moves them.

ghost use Rattle.std.specs.Prelude.{◌≡◌, ◌<◌, ℕ, List, true, false, Some, None, OnOk, IfOk};
ghost use Rattle.std.specs.Ordering.{nat_cmp};
ghost use Rattle.std.specs.Str.{bytes_eq};
ghost use Rattle.std.specs.BTreeMap.{get, IsEmpty};
ghost use Rattle.indexmap.specs.IndexMap.{index_of, index_map_len};
ghost use Rattle.pitch_fields.specs.declared.side.Side.{Side};
ghost use Rattle.pitch_fields.specs.declared.side.Side.TheVariants.{Buy, Sell};
ghost use Rattle.pitch_model.specs.Book.{Book, IsBook};
ghost use Rattle.pitch_model.specs.Levels.{best, level, same_side};
ghost use Rattle.best_quotes.specs.Leveling.{MovesPrices, IsNearest, side_of, level_in, Has};
ghost use Rattle.best_quotes.specs.Leveling.{SameLevels, Shares, IsOn, TurnsSide};

use crate::prices::{Best, Prices, shares_at, turn};
use indexmap::IndexMap;
use pitch_fields::{OutOfMemory, Price, Side, Symbol};
use pitch_messages::Order;
use std::alloc::Global;
use std::collections::BTreeMap;
use std::marker::Model;

// The two sides of a symbol.
#[derive(Drop)]
pub(crate) struct Sides {
    buy: Prices,
    sell: Prices,
}

/// The open shares of a symbol by side and price.
///
/// The best of each side stands beside them, which is told so from the symbol's own place: a walk
/// to the end of its prices is one through memory that is in no cache.
#[derive(Drop)]
pub struct Depth {
    bid: Best,
    offer: Best,
    sides: Sides,
}

impl Model for Depth {
    ghost use Rattle.best_quotes.specs.contracts.levels.Sides as both;
    ghost use Rattle.best_quotes.specs.declared.levels.Sides.{Sides};
    ghost use Rattle.best_quotes.specs.Leveling.{AreBests};

    ghost Value = { Sides };

    ghost coded = { both.the_row.coded };

    ghost view = { λ d. d.sides };

    ghost invariant = { λ d. AreBests d.sides d.bid d.offer };
}

/// The depth of each symbol that has an open order.
pub type Levels = IndexMap<[u8; 8], Depth>;

// Two empty sides, which take no memory.
fn no_sides(alloc: Global) -> Depth
    ensures { IsEmpty result.buy × IsEmpty result.sell }
{
    let sides = Sides {
        buy: BTreeMap::new(alloc),
        sell: BTreeMap::new(alloc),
    };
    Depth {
        bid: None,
        offer: None,
        sides,
    }
}

// The best of a side.
fn best_in(depth: &Depth, side: Side) -> Best
    ensures { IsNearest side (get nat_cmp (side_of side depth.now)) result }
{
    match side {
        Side::Buy => depth.bid,
        Side::Sell => depth.offer,
    }
}

// The level of a symbol on a side which no other there is better than.
fn nearest(levels: &Levels, symbol: Symbol, side: Side) -> Best
    ensures { IsNearest side (level_in levels.now.entries symbol side) result }
{
    match levels.get(&symbol.bytes()) {
        Some(depth) => best_in(depth, side),
        None => None,
    }
}

/// The best price of a symbol on a side, with its shares; None exactly where the side is empty.
pub fn best_level(levels: &Levels, symbol: Symbol, side: Side) -> Option<(Price, u64)>
    ensures { (book : Book) → IsBook book → Has levels.now.entries (level book)
        → result ≡ best book symbol side }
{
    nearest(levels, symbol, side)
}

/// A side of a symbol.
pub fn prices_in(depth: &Depth, side: Side) -> &Prices
    ensures { result.now ≡ side_of side depth.now }
{
    match side {
        Side::Buy => &depth.sides.buy,
        Side::Sell => &depth.sides.sell,
    }
}

/// The shares of a symbol on a side at a price; 0 where no order is open there.
pub fn level_at(levels: &Levels, symbol: Symbol, side: Side, price: Price) -> u64
    ensures { (shares : Shares) → Has levels.now.entries shares
        → result ≡ shares symbol side price }
{
    match levels.get(&symbol.bytes()) {
        Some(depth) => shares_at(prices_in(depth, side), price),
        None => 0,
    }
}

// Where a symbol stands, with two empty sides if it is a new one.
fn place_of(levels: &mut Levels, symbol: Symbol) -> Result<usize, OutOfMemory>
    ensures same { OnOk result (SameLevels levels.old.entries levels.new.entries) }
    ensures place { IfOk result (λ place. index_of bytes_eq levels.new symbol ≡ Some place) }
    ensures within { IfOk result (λ place. place < index_map_len levels.new) }
{
    let bytes = symbol.bytes();
    match levels.get_index_of(&bytes) {
        Some(place) => Ok(place),
        None => {
            let alloc = *levels.allocator();
            levels.insert(bytes, no_sides(alloc))?;
            Ok(levels.get_index_of(&bytes).unwrap())
        }
    }
}

// One order of a side becomes another. It answers the best before and after.
fn turn_in(
    depth: &mut Depth,
    side: Side,
    before: &Option<Order>,
    now: &Option<Order>,
) -> Result<(Best, Best), OutOfMemory>
    ensures moves { OnOk result (MovesPrices before.now now.now
        (side_of side depth.old) (side_of side depth.new)) }
    ensures was { IfOk result (λ bests.
        IsNearest side (get nat_cmp (side_of side depth.old)) bests.0) }
    ensures is { IfOk result (λ bests.
        IsNearest side (get nat_cmp (side_of side depth.new)) bests.1) }
    ensures others { (other : Side) → same_side other side ≡ false
        → side_of other depth.new ≡ side_of other depth.old }
{
    match side {
        Side::Buy => turn(&mut depth.sides.buy, &mut depth.bid, Side::Buy, before, now),
        Side::Sell => turn(
            &mut depth.sides.sell,
            &mut depth.offer,
            Side::Sell,
            before,
            now,
        ),
    }
}

// One order of the symbol that stands at a place becomes another one of it, on a side.
fn turn_at(
    levels: &mut Levels,
    place: usize,
    side: Side,
    before: &Option<Order>,
    now: &Option<Order>,
) -> Result<(Best, Best), OutOfMemory>
    requires { place < index_map_len levels.old }
    ensures { IfOk result (λ bests. (symbol : List ℕ)
        → index_of bytes_eq levels.old symbol ≡ Some place
        → IsOn symbol side before.now → IsOn symbol side now.now
        → TurnsSide levels.old.entries levels.new.entries symbol side before.now now.now bests) }
{
    let (_, depth) = levels.pair_mut(place);
    let bests = turn_in(depth, side, before, now)?;
    Ok(bests)
}

// Whether neither side has an order.
fn is_empty(depth: &Depth) -> bool
    ensures { result ≡ true
        → (side : Side) (price : ℕ) → get nat_cmp (side_of side depth.now) price ≡ None }
{
    depth.bid.is_none() && depth.offer.is_none()
}

// The symbol at a place goes, where it has no order left.
fn drop_empty(levels: &mut Levels, place: usize)
    ensures { SameLevels levels.old.entries levels.new.entries }
{
    let Some((_, depth)) = levels.get_index(place) else {
        return;
    };
    if is_empty(depth) {
        levels.swap_remove_index(place);
    }
}

// One order of a symbol on a side becomes another. It answers the bests of the side before and
// after.
pub(crate) fn turn_side(
    levels: &mut Levels,
    symbol: Symbol,
    side: Side,
    before: &Option<Order>,
    now: &Option<Order>,
) -> Result<(Best, Best), OutOfMemory>
    ensures { IfOk result (λ bests. IsOn symbol side before.now → IsOn symbol side now.now
        → TurnsSide levels.old.entries levels.new.entries symbol side before.now now.now bests) }
{
    let place = place_of(levels, symbol)?;
    let bests = turn_at(levels, place, side, before, now)?;
    if bests.1.is_some() {
        return Ok(bests);
    }
    drop_empty(levels, place);
    Ok(bests)
}
