//! Books: what messages leave, levels and best prices, copies, and trading statuses.

use order_book::{OrderList, StatusList, UnitBook};
use pitch_fields::{Price, Side, Symbol};
use pitch_messages::Raw;
use std::alloc::Global;
use std::process::Abort;

// Messages on order 5, and two of order 3.
const TIME: &[u8] = b"\x06\x20\x98\x85\0\0";

const ADD: &[u8] = b"\x22\x21\0\0\0\0\x05\0\0\0\0\0\0\0B\x64\0\0\0IBM   \xa0\x86\x01\0\0\0\0\0\x01";

const ADD_NONE: &[u8] = b"\x1a\x22\0\0\0\0\x05\0\0\0\0\0\0\0B\0\0IBM   \xe8\x03\x01";

const ADD_AGAIN: &[u8] = b"\x1a\x22\0\0\0\0\x05\0\0\0\0\0\0\0B\x0a\0IBM   \xe7\x03\x01";

const ADD_OTHER: &[u8] =
    b"\x28\x2f\0\0\0\0\x03\0\0\0\0\0\0\0B\x0a\0\0\0IBM     \xb0\xad\x01\0\0\0\0\0\0MPID";

const EXECUTED: &[u8] = b"\x1a\x23\0\0\0\0\x05\0\0\0\0\0\0\0\x1e\0\0\0\x09\0\0\0\0\0\0\0";

const EXECUTED_AT: &[u8] =
    b"\x26\x24\0\0\0\0\x05\0\0\0\0\0\0\0\x1e\0\0\0\x14\0\0\0\x09\0\0\0\0\0\0\0\xa0\x86\x01\0\0\0\0\0";

const REDUCE_ALL: &[u8] = b"\x12\x25\0\0\0\0\x05\0\0\0\0\0\0\0\x64\0\0\0";

// More than the hundred shares of order 5, or the last of them.
const EXECUTED_MORE: &[u8] = b"\x1a\x23\0\0\0\0\x05\0\0\0\0\0\0\0\x65\0\0\0\x09\0\0\0\0\0\0\0";

const EXECUTED_LAST_AT: &[u8] =
    b"\x26\x24\0\0\0\0\x05\0\0\0\0\0\0\0\x64\0\0\0\0\0\0\0\x09\0\0\0\0\0\0\0\xa0\x86\x01\0\0\0\0\0";

const REDUCE_MORE: &[u8] = b"\x12\x25\0\0\0\0\x05\0\0\0\0\0\0\0\x65\0\0\0";

const REDUCE: &[u8] = b"\x10\x26\0\0\0\0\x05\0\0\0\0\0\0\0\x03\0";

const REDUCE_REST: &[u8] = b"\x10\x26\0\0\0\0\x05\0\0\0\0\0\0\0\x04\0";

const MODIFY: &[u8] = b"\x1b\x27\0\0\0\0\x05\0\0\0\0\0\0\0\x07\0\0\0\xb0\xad\x01\0\0\0\0\0\0";

const MODIFY_NONE: &[u8] = b"\x13\x28\0\0\0\0\x05\0\0\0\0\0\0\0\0\0\xe8\x03\x01";

const DELETE: &[u8] = b"\x0e\x29\0\0\0\0\x05\0\0\0\0\0\0\0";

const CLEAR: &[u8] = b"\x06\x97\0\0\0\0";

// What does nothing to a book, under the id of order 5 where it names one.
const LONG_TRADE: &[u8] =
    b"\x29\x2a\0\0\0\0\x05\0\0\0\0\0\0\0B\x07\0\0\0IBM   \xb0\xad\x01\0\0\0\0\0\x09\0\0\0\0\0\0\0";

const SHORT_TRADE: &[u8] =
    b"\x21\x2b\0\0\0\0\x05\0\0\0\0\0\0\0B\x07\0IBM   \xe8\x03\x09\0\0\0\0\0\0\0";

const EXPANDED_TRADE: &[u8] =
    b"\x2b\x30\0\0\0\0\x05\0\0\0\0\0\0\0B\x07\0\0\0IBM     \xb0\xad\x01\0\0\0\0\0\x09\0\0\0\0\0\0\0";

const TRADE_BREAK: &[u8] = b"\x0e\x2c\0\0\0\0\x05\0\0\0\0\0\0\0";

const END_OF_SESSION: &[u8] = b"\x06\x2d\0\0\0\0";

const UNKNOWN: &[u8] = b"\x0e\x99\0\0\0\0\x05\0\0\0\0\0\0\0";

const SHORT_ADD: &[u8] = b"\x06\x21\0\0\0\0";

// IBM halted, and then not; and a status of another symbol, with reserved bytes that are no spaces.
const HALT: &[u8] = b"\x12\x31\0\0\0\0IBM     H0  ";

const TRADE: &[u8] = b"\x12\x31\0\0\0\0IBM     TN  ";

const OTHER_HALT: &[u8] = b"\x13\x31\x07\0\0\0AAPL    HR\0\xff\x09";

// The book that messages leave, in ample memory.
fn book_after(rt: &impl Abort, alloc: Global, raws: &[&[u8]]) -> UnitBook {
    let mut book = UnitBook::make(alloc);
    for bytes in raws {
        let raw = Raw::from_bytes(bytes).expect(rt, "a raw");
        assert!(rt; book.len() < 100);
        assert!(rt; book.apply(&raw).is_ok());
    }
    book
}

// Messages, whether the second is known, and quantity, price and display of order 5.
const ROWS: [(&[&[u8]], bool, Option<(u32, u64, bool)>); 27] = [
    (&[TIME, ADD], true, Some((100, 100_000, true))),
    (&[ADD, MODIFY, REDUCE], false, Some((4, 110_000, false))),
    (&[ADD, MODIFY, REDUCE, REDUCE_REST], false, None),
    (&[ADD, REDUCE_ALL], false, None),
    (&[ADD, REDUCE_MORE], false, None),
    (&[ADD, EXECUTED_MORE], false, None),
    (&[ADD, EXECUTED_LAST_AT], false, None),
    (&[ADD, EXECUTED], false, Some((70, 100_000, true))),
    (&[ADD, EXECUTED_AT], false, Some((20, 100_000, true))),
    (&[TIME, ADD, CLEAR], true, None),
    (&[ADD, MODIFY_NONE], false, None),
    (&[ADD_NONE], false, None),
    (&[ADD, ADD_NONE], false, Some((100, 100_000, true))),
    (&[ADD, ADD_AGAIN], false, Some((10, 99_900, true))),
    (&[ADD, DELETE], false, None),
    (&[ADD_OTHER, REDUCE], false, None),
    (&[ADD_OTHER, EXECUTED], false, None),
    (&[ADD_OTHER, EXECUTED_AT], false, None),
    (&[ADD_OTHER, MODIFY], false, None),
    (&[SHORT_ADD], false, None),
    (&[DELETE, CLEAR], false, None),
    (&[ADD, LONG_TRADE], false, Some((100, 100_000, true))),
    (&[ADD, SHORT_TRADE], false, Some((100, 100_000, true))),
    (&[ADD, EXPANDED_TRADE], false, Some((100, 100_000, true))),
    (&[ADD, TRADE_BREAK], false, Some((100, 100_000, true))),
    (&[ADD, END_OF_SESSION], false, Some((100, 100_000, true))),
    (&[TIME, ADD, UNKNOWN], true, Some((100, 100_000, true))),
];

// Applies the messages of each row to a new book.
fn apply_each(rt: &impl Abort, alloc: Global, rows: &[(&[&[u8]], bool, Option<(u32, u64, bool)>)]) {
    for (raws, second, want) in rows {
        let book = book_after(rt, alloc, raws);
        assert!(rt; has_order(&book, want));
        assert!(rt; book.second() == second.then_some(34200));
        drop(book);
    }
}

// Whether order 5 has this quantity, price and display, or is not open.
fn has_order(book: &UnitBook, want: &Option<(u32, u64, bool)>) -> bool {
    match (book.order(5), want) {
        (Some(order), Some((quantity, price, display))) => {
            order.quantity == *quantity
                && order.price.ten_thousandths() == *price
                && order.display == *display
        }
        (None, None) => true,
        _ => false,
    }
}

#[test]
fn messages_change_a_book(rt: HostRuntime) {
    apply_each(&rt, rt.alloc(), &ROWS);
}

// Whether order 5 alone makes the levels of IBM: four shares to buy at 11.00.
fn has_one_level(book: &UnitBook) -> bool {
    let ibm = Symbol::from_six(*b"IBM   ");
    let high = Price::from_long(110_000);
    book.level(ibm, Side::Buy, high) == 4
        && book.level(ibm, Side::Buy, Price::from_long(100_000)) == 0
        && book.level(ibm, Side::Sell, high) == 0
        && book.best(ibm, Side::Buy) == Some((high, 4))
}

fn has_no_bid(book: &UnitBook) -> bool {
    book.best(Symbol::from_six(*b"IBM   "), Side::Buy).is_none()
}

#[test]
fn levels_and_best_prices(rt: HostRuntime) {
    let book = book_after(&rt, rt.alloc(), &[ADD, MODIFY, REDUCE]);
    assert!(rt; has_one_level(&book));
    drop(book);
    let empty = book_after(&rt, rt.alloc(), &[ADD, MODIFY, REDUCE, REDUCE_REST]);
    assert!(rt; has_no_bid(&empty));
    drop(empty);
}

// Gives a book of two orders room for ten more.
fn make_room(rt: &impl Abort, book: &mut UnitBook) {
    assert!(rt; book.len() == 2);
    assert!(rt; book.reserve(10).is_ok());
    assert!(rt; book.spare() >= 10);
}

// A copy of the book that messages leave, which has room for ten orders more.
fn copy_with_room(rt: &impl Abort, alloc: Global, raws: &[&[u8]]) -> UnitBook {
    let mut book = book_after(rt, alloc, raws);
    make_room(rt, &mut book);
    let copy = book.copy().expect(rt, "memory");
    drop(book);
    copy
}

// Whether orders have these ids, in this order.
fn have_ids(orders: &OrderList, ids: &[u64]) -> bool {
    for (order, id) in orders.as_slice().iter().zip(ids) {
        if order.id != *id {
            return false;
        }
    }
    orders.len() == ids.len()
}

#[test]
fn a_copy_and_its_orders_by_id(rt: HostRuntime) {
    let copy = copy_with_room(&rt, rt.alloc(), &[ADD, ADD_OTHER]);
    assert!(rt; copy.shares() == 110);
    let mut orders = OrderList::make(rt.alloc());
    assert!(rt; copy.orders_by_id(&mut orders).is_ok());
    drop(copy);
    assert!(rt; have_ids(&orders, &[3, 5]));
}

// Whether IBM has this status, and AAPL none.
fn is_halted(book: &UnitBook) -> bool {
    book.status(Symbol::from_six(*b"IBM   ")) == Some((0x48, 0x30))
        && book.status(Symbol::from_six(*b"AAPL  ")).is_none()
}

#[test]
fn statuses_stay_after_a_clear(rt: HostRuntime) {
    let book = book_after(&rt, rt.alloc(), &[ADD, HALT, CLEAR]);
    assert!(rt; book.len() == 0 && is_halted(&book));
    drop(book);
}

// Appends the statuses in a copy of the book that messages leave.
fn append_copied(rt: &impl Abort, alloc: Global, raws: &[&[u8]], states: &mut StatusList) {
    let book = book_after(rt, alloc, raws);
    let copy = book.copy().expect(rt, "memory");
    drop(book);
    assert!(rt; copy.statuses_by_symbol(states).is_ok());
    drop(copy);
}

// The statuses of both books below: a symbol, its halt and its short sale.
const STATES: [(&[u8; 8], u8, u8); 3] = [
    (b"IBM     ", b'H', b'0'),
    (b"AAPL    ", b'H', b'R'),
    (b"IBM     ", b'T', b'N'),
];

// Whether these are the statuses.
fn have_states(states: &StatusList, wanted: &[(&[u8; 8], u8, u8)]) -> bool {
    for (state, (symbol, halt, sho)) in states.as_slice().iter().zip(wanted) {
        if state.symbol.bytes() != **symbol || state.halt != *halt || state.sho != *sho {
            return false;
        }
    }
    states.len() == wanted.len()
}

#[test]
fn statuses_come_by_symbol(rt: HostRuntime) {
    let mut states = StatusList::make(rt.alloc());
    append_copied(&rt, rt.alloc(), &[ADD, HALT, CLEAR], &mut states);
    assert!(rt; states.len() == 1);
    append_copied(&rt, rt.alloc(), &[HALT, OTHER_HALT, TRADE], &mut states);
    assert!(rt; have_states(&states, &STATES));
}
