//! Units with the levels of their books, and without.

use best_quotes::QuoteLines;
use leveled_units::{LevelList, LeveledUnits};
use pitch_fields::{HoldLimit, Price, Side, Symbol};
use std::process::Abort;
use unit_packets::view_block;

// Message 1 of unit 7 adds an order to buy 100 ABC at 1.01.
const FIRST: &[u8] =
    b"\x22\0\x01\x07\x01\0\0\0\x1a\x22\0\0\0\0\x01\0\0\0\0\0\0\0B\x64\0ABC   \x65\0\x01";

// Message 2 adds an order to buy 50 at 1.02.
const SECOND: &[u8] =
    b"\x22\0\x01\x07\x02\0\0\0\x1a\x22\0\0\0\0\x02\0\0\0\0\0\0\0B\x32\0ABC   \x66\0\x01";

// The units that have heard the first, in ample memory.
fn units_of<R: Abort + AllocGlobal>(rt: &R, leveled: bool) -> LeveledUnits {
    let limit = HoldLimit::of(16).expect(rt, "a limit");
    let mut units = LeveledUnits::make(rt.alloc(), limit, leveled).expect(rt, "memory");
    let block = view_block(FIRST).expect(rt, "a block");
    units.hear_block(rt.alloc(), &block).expect(rt, "memory");
    units.reserve(7, 2).expect(rt, "memory");
    units
}

// Whether unit 7 alone was heard, and has this order's price and shares as its best bid.
fn has_bid(units: &LeveledUnits) -> bool {
    let symbol = Symbol::from_eight(*b"ABC     ");
    match units.unit(7) {
        Some(unit) => {
            unit.best(symbol, Side::Buy) == Some((Price::from_long(10_100), 100))
                && unit.best(symbol, Side::Sell).is_none()
                && units.unit(1).is_none()
        }
        None => false,
    }
}

#[test]
fn the_best_bid_is_that_of_the_order(rt: HostRuntime) {
    for leveled in [true, false] {
        let units = units_of(&rt, leveled);
        assert!(rt; has_bid(&units));
        drop(units);
    }
}

#[test]
fn a_better_bid_is_quoted(rt: HostRuntime) {
    let symbol = Symbol::from_eight(*b"ABC     ");
    let mut units = units_of(&rt, true);
    let mut lines = QuoteLines::make(rt.alloc());
    let block = view_block(SECOND).expect(&rt, "a block");
    let heard = units
        .hear_quoted(rt.alloc(), &block, &mut lines)
        .expect(&rt, "memory");
    assert!(rt; heard.told && lines.len() == 1);
    let line = lines.as_slice()[0];
    assert!(rt; line.sequence == 2 && line.quote.best == Some((Price::from_long(10_200), 50)));
    let unit = units.unit(7).expect(&rt, "a client");
    let mut levels = LevelList::make(rt.alloc());
    let count = unit
        .levels_best_first(symbol, Side::Buy, 8, &mut levels)
        .expect(&rt, "memory");
    assert!(rt; count == 2 && levels.len() == 2);
    let worse = levels.as_slice()[1];
    assert!(rt; worse == (Price::from_long(10_100), 100));
    assert!(rt; unit.level(symbol, Side::Buy, Price::from_long(10_100)) == 100);
}
