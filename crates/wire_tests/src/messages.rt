//! Messages: fields at their places, the form that fits an order, lists, and a login.

use pitch_fields::{Price, Side, Symbol};
use pitch_messages::session::{self, SessionError, SessionMessage};
use pitch_messages::{
    ByteList, Message, Order, Raw, RawList, add_raw, modify_raw, read, reduce_raw, trade_raw, write,
};
use std::alloc::Global;
use std::process::Abort;

fn raw_of(rt: &impl Abort, bytes: &[u8]) -> Raw {
    Raw::from_bytes(bytes).expect(rt, "a raw")
}

// An add of 100 IBM at 10 dollars, that has grown by two bytes.
const GROWN: [u8; 36] =
    *b"\x24\x21\0\0\0\0\x05\0\0\0\0\0\0\0B\x64\0\0\0IBM   \xa0\x86\x01\0\0\0\0\0\x01\xaa\xbb";

// Two adds of 100 IBM, at 655.35 and at 655.36 dollars.
const IN_CENTS: [u8; 26] = *b"\x1a\x22\0\0\0\0\x01\0\0\0\0\0\0\0B\x64\0IBM   \xff\xff\x01";

const ABOVE_CENTS: [u8; 34] =
    *b"\x22\x21\0\0\0\0\x02\0\0\0\0\0\0\0B\x64\0\0\0IBM   \0\0\x64\0\0\0\0\0\x01";

// Raws, and what is read of them, as it is shown for debugging.
const READS: [(&[u8], &str); 5] = [
    (b"\x06\x20\x98\x85\0\0", "Ok(Time { second: 34200 })"),
    (
        &GROWN,
        "Ok(AddLong { offset: 0, id: 5, side: Buy, quantity: 100, symbol: [73, 66, 77, 32, 32, 32], price: 100000, flags: 1 })",
    ),
    (
        &IN_CENTS,
        "Ok(AddShort { offset: 0, id: 1, side: Buy, quantity: 100, symbol: [73, 66, 77, 32, 32, 32], price: 65535, flags: 1 })",
    ),
    (b"\x05\x2d\x01\x02\x03", "Err(Short { needs: 6, has: 5 })"),
    (
        b"\x1a\x22\0\0\0\0\x01\0\0\0\0\0\0\0X\x64\0IBM   \xff\xff\x01",
        "Err(BadSide { byte: 88 })",
    ),
];

fn raws_say(rt: &impl Abort, alloc: Global, cases: &[(&[u8], &str)]) {
    for (bytes, want) in cases {
        let said = read(&raw_of(rt, bytes));
        let text = format!(in alloc; "{said:?}").expect(rt, "memory");
        assert!(rt; text.as_str() == *want);
    }
}

// Whether an unknown type is read as it stands.
fn stands_as_it_is(unknown: &Raw) -> bool {
    match read(unknown) {
        Ok(message) => {
            matches!(&message, Message::Other(_)) && write(&message).bytes() == unknown.bytes()
        }
        Err(_) => false,
    }
}

#[test]
fn raws_say_what_stands_at_their_places(rt: HostRuntime) {
    raws_say(&rt, rt.alloc(), &READS);
    assert!(rt; stands_as_it_is(&raw_of(&rt, b"\x03\x99\x07")));
}

fn order_at(price: u64) -> Order {
    Order {
        id: 1,
        side: Side::Buy,
        quantity: 100,
        symbol: Symbol::from_six(*b"IBM   "),
        price: Price::from_long(price),
        display: true,
        participant: *b"    ",
    }
}

// Whether each raw has its type and its length.
fn have_forms(forms: &[(Raw, u8, usize)]) -> bool {
    for (raw, kind, length) in forms {
        if raw.kind() != *kind || raw.bytes().len() != *length {
            return false;
        }
    }
    true
}

// The order at the price in cents, with a participant, and with a symbol of eight bytes.
fn named() -> Order {
    Order {
        participant: *b"MPID",
        ..order_at(6_553_500)
    }
}

fn wide() -> Order {
    Order {
        symbol: Symbol::from_eight(*b"GAMMADLT"),
        ..order_at(6_553_500)
    }
}

// The order above it, under another id.
fn above() -> Order {
    Order {
        id: 2,
        ..order_at(6_553_600)
    }
}

#[test]
fn adds_take_the_form_in_which_they_fit(rt: HostRuntime) {
    assert!(rt; add_raw(&order_at(6_553_500), 0).bytes() == IN_CENTS.as_slice());
    assert!(rt; add_raw(&above(), 0).bytes() == ABOVE_CENTS.as_slice());
    let forms = [
        (add_raw(&named(), 7), 0x2f, 40),
        (add_raw(&wide(), 7), 0x2f, 40),
        (trade_raw(&named(), 9, 7), 0x2b, 33),
        (trade_raw(&above(), 9, 7), 0x2a, 41),
        (trade_raw(&wide(), 9, 7), 0x30, 43),
    ];
    assert!(rt; have_forms(&forms));
}

#[test]
fn changes_take_the_form_in_which_they_fit(rt: HostRuntime) {
    let (cents, above) = (Price::from_long(6_553_500), Price::from_long(6_553_600));
    let forms = [
        (reduce_raw(1, 65_535, 7), 0x26, 16),
        (reduce_raw(1, 65_536, 7), 0x25, 18),
        (modify_raw(1, 65_535, cents, false, 7), 0x28, 19),
        (modify_raw(1, 65_536, cents, false, 7), 0x27, 27),
        (modify_raw(1, 1, above, false, 7), 0x27, 27),
    ];
    assert!(rt; have_forms(&forms));
}

// A list of these messages, with memory that was reserved for two.
fn list_of(rt: &impl Abort, alloc: Global, messages: &[&[u8]]) -> RawList {
    let mut list = RawList::make(alloc);
    list.reserve(2).expect(rt, "memory");
    for bytes in messages {
        list.push(&raw_of(rt, bytes)).expect(rt, "memory");
    }
    list
}

// Whether a copy of what stands behind the first message has two, of which this is the second.
fn copies(rt: &impl Abort, alloc: Global, list: &RawList, second: &[u8]) -> bool {
    assert!(rt; list.len() == 3);
    let copy = RawList::of_raws(alloc, list.raws().after(1)).expect(rt, "memory");
    copy.len() == 2 && copy.get(1) == Some(second)
}

// A byte, a zero, and then all messages of a list, one behind the other.
fn joined(rt: &impl Abort, alloc: Global, list: &RawList) -> ByteList {
    let mut joined = ByteList::of_bytes(alloc, b"\x2d").expect(rt, "memory");
    joined.reserve(40).expect(rt, "memory");
    joined.push(0).expect(rt, "memory");
    for raw in list.raws() {
        joined.push_all(raw).expect(rt, "memory");
    }
    joined
}

#[test]
fn lists_lend_what_was_put_in(rt: HostRuntime) {
    let mut list = list_of(
        &rt,
        rt.alloc(),
        &[&GROWN[..], b"\x03\x99\x07", &IN_CENTS[..]],
    );
    assert!(rt; copies(&rt, rt.alloc(), &list, &IN_CENTS));
    list.truncate(2);
    let mut joined = joined(&rt, rt.alloc(), &list);
    assert!(rt; joined.len() == 41 && joined.bytes().ends_with(b"\x03\x99\x07"));
    joined.truncate(1);
    assert!(rt; joined.get(0) == Some(&0x2d) && joined.get(1).is_none());
}

#[test]
fn sessions_begin_with_a_login(rt: HostRuntime) {
    let login = SessionMessage::Login {
        sub: *b"0001",
        user: *b"FEED",
        password: *b"PITCH     ",
    };
    let raw = session::write(&login);
    assert!(rt; raw.bytes() == b"\x16\x010001FEED  PITCH     ".as_slice());
    assert!(rt; session::read(&raw) == Ok(login));
    let wrong = session::read(&raw_of(&rt, b"\x03\x99\x07"));
    assert!(rt; wrong == Err(SessionError::WrongType { kind: 0x99 }));
    let short = session::read(&raw_of(&rt, b"\x02\x03"));
    assert!(rt; short == Err(SessionError::Short { needs: 9, has: 2 }));
}
