//! Ladders: which best prices a message changes, and the order in which they are told.

ghost use Rattle.std.specs.Prelude.{◌≡◌, false};

use best_quotes::{Ladder, Quote, QuoteList};
use pitch_fields::{Side, Symbol};
use pitch_messages::Raw;
use std::alloc::Global;
use std::process::Abort;

// Orders 1 and 2 to buy IBM at 10.00, order 3 behind them at 9.99, and order 1 again for ACME.
const ADD_1: &[u8] =
    b"\x22\x21\0\0\0\0\x01\0\0\0\0\0\0\0B\x64\0\0\0IBM   \xa0\x86\x01\0\0\0\0\0\x01";

const ADD_2: &[u8] =
    b"\x22\x21\0\0\0\0\x02\0\0\0\0\0\0\0B\x32\0\0\0IBM   \xa0\x86\x01\0\0\0\0\0\x01";

const ADD_3: &[u8] =
    b"\x22\x21\0\0\0\0\x03\0\0\0\0\0\0\0B\x0a\0\0\0IBM   \x3c\x86\x01\0\0\0\0\0\x01";

const ADD_1_ACME: &[u8] =
    b"\x22\x21\0\0\0\0\x01\0\0\0\0\0\0\0S\x05\0\0\0ACME  \x40\x9c\0\0\0\0\0\0\x01";

const DELETE_1: &[u8] = b"\x0e\x29\0\0\0\0\x01\0\0\0\0\0\0\0";

const DELETE_2: &[u8] = b"\x0e\x29\0\0\0\0\x02\0\0\0\0\0\0\0";

const REDUCE_2_BY_20: &[u8] = b"\x12\x25\0\0\0\0\x02\0\0\0\0\0\0\0\x14\0\0\0";

const REDUCE_2_BY_30: &[u8] = b"\x12\x25\0\0\0\0\x02\0\0\0\0\0\0\0\x1e\0\0\0";

const CLEAR: &[u8] = b"\x06\x97\0\0\0\0";

const IBM: [u8; 8] = *b"IBM     ";

const ACME: [u8; 8] = *b"ACME    ";

// A symbol, a side, and the best price in ten thousandths with its shares.
type Row = ([u8; 8], Side, Option<(u64, u64)>);

// Does what a message says, in ample memory.
fn apply(rt: &impl Abort, ladder: &mut Ladder, bytes: &[u8], quotes: &mut QuoteList)
    ensures { ladder.new.spent ≡ false }
{
    let raw = Raw::from_bytes(bytes).expect(rt, "a raw");
    assert!(rt; !ladder.is_full());
    let applied = ladder.apply(&raw, quotes);
    assert!(rt; applied.is_ok());
}

// The quotes of messages from the empty book on.
fn quotes_of(rt: &impl Abort, alloc: Global, raws: &[&[u8]]) -> QuoteList {
    let mut ladder = Ladder::make(alloc);
    let mut quotes = QuoteList::make(alloc);
    for bytes in raws {
        apply(rt, &mut ladder, bytes, &mut quotes);
    }
    drop(ladder);
    quotes
}

// Whether a quote says what a row does.
fn says(quote: &Quote, row: &Row) -> bool {
    let (symbol, side, best) = *row;
    let told = match quote.best {
        Some((price, shares)) => Some((price.ten_thousandths(), shares)),
        None => None,
    };
    quote.symbol.bytes() == symbol && quote.side == side && told == best
}

// Whether quotes are these, in their order.
fn are_told(quotes: &QuoteList, rows: &[Row]) -> bool {
    if quotes.len() != rows.len() {
        return false;
    }
    for (quote, row) in quotes.as_slice().iter().zip(rows) {
        if !says(quote, row) {
            return false;
        }
    }
    true
}

// Messages from the empty book on, and the quotes that are told.
const TOLD: [(&[&[u8]], &[Row]); 3] = [
    (
        &[ADD_3, ADD_1, ADD_2, DELETE_1, DELETE_2],
        &[
            (IBM, Side::Buy, Some((99_900, 10))),
            (IBM, Side::Buy, Some((100_000, 100))),
            (IBM, Side::Buy, Some((100_000, 150))),
            (IBM, Side::Buy, Some((100_000, 50))),
            (IBM, Side::Buy, Some((99_900, 10))),
        ],
    ),
    // an id goes to another symbol: both are told, by their bytes
    (
        &[ADD_1, ADD_1_ACME],
        &[
            (IBM, Side::Buy, Some((100_000, 100))),
            (ACME, Side::Sell, Some((40_000, 5))),
            (IBM, Side::Buy, None),
        ],
    ),
    // a clear tells each symbol, once
    (
        &[ADD_2, ADD_1_ACME, CLEAR, CLEAR],
        &[
            (IBM, Side::Buy, Some((100_000, 50))),
            (ACME, Side::Sell, Some((40_000, 5))),
            (ACME, Side::Sell, None),
            (IBM, Side::Buy, None),
        ],
    ),
];

fn all_are_told(rt: &impl Abort, alloc: Global, cases: &[(&[&[u8]], &[Row])]) {
    for (raws, rows) in cases {
        let told = quotes_of(rt, alloc, raws);
        assert!(rt; are_told(&told, rows));
    }
}

#[test]
fn messages_tell_the_best(rt: HostRuntime) {
    all_are_told(&rt, rt.alloc(), &TOLD);
}

// An order is reduced, and then to nothing.
const REDUCED: [Row; 3] = [
    (IBM, Side::Buy, Some((100_000, 50))),
    (IBM, Side::Buy, Some((100_000, 30))),
    (IBM, Side::Buy, None),
];

// Whether this is the best price to buy IBM.
fn has_best(ladder: &Ladder, best: Option<(u64, u64)>) -> bool
    requires { ladder.now.spent ≡ false }
{
    match (ladder.best(Symbol::from_eight(IBM), Side::Buy), best) {
        (Some((price, shares)), Some(wanted)) => (price.ten_thousandths(), shares) == wanted,
        (None, None) => true,
        _ => false,
    }
}

#[test]
fn a_reduction_empties_a_level(rt: HostRuntime) {
    let mut ladder = Ladder::make(rt.alloc());
    let mut quotes = QuoteList::make(rt.alloc());
    apply(&rt, &mut ladder, ADD_2, &mut quotes);
    apply(&rt, &mut ladder, REDUCE_2_BY_20, &mut quotes);
    assert!(rt; has_best(&ladder, Some((100_000, 30))));
    apply(&rt, &mut ladder, REDUCE_2_BY_30, &mut quotes);
    assert!(rt; has_best(&ladder, None));
    drop(ladder);
    assert!(rt; are_told(&quotes, &REDUCED));
}
