//! Streams of blocks, and what `follow` and `show` print of them.

use crate::runs::{all_are_done, all_are_refused, run};
use pitch_tool::ExitStatus;
use std::alloc::Global;
use std::process::Abort;
use std::sync::Wait;
use std::thread::Threads;
use std::time::Clock;

// The second 34,200 at sequence 1 of unit 1.
pub(crate) const TIME: &[u8] = b"\x0e\x00\x01\x01\x01\x00\x00\x00\x06\x20\x98\x85\x00\x00";

// Order 5 at sequence 2 of unit 1: buys 100 of IBM at 10.
pub(crate) const ADD: &[u8] = b"\x2a\x00\x01\x01\x02\x00\x00\x00\
    \x22\x21\x00\x00\x00\x00\x05\x00\x00\x00\x00\x00\x00\x00B\x64\x00\x00\x00IBM   \
    \xa0\x86\x01\x00\x00\x00\x00\x00\x01";

// A heartbeat of unit 1 whose next sequence is 4.
pub(crate) const BEAT: &[u8] = b"\x08\x00\x00\x01\x04\x00\x00\x00";

// Order 5 is deleted at sequence 3 of unit 1.
pub(crate) const DELETE: &[u8] = b"\x16\x00\x01\x01\x03\x00\x00\x00\
    \x0e\x29\x00\x00\x00\x00\x05\x00\x00\x00\x00\x00\x00\x00";

// 30 shares of order 5 are executed at sequence 3 of unit 1.
const EXECUTE: &[u8] = b"\x22\x00\x01\x01\x03\x00\x00\x00\
    \x1a\x23\x00\x00\x00\x00\x05\x00\x00\x00\x00\x00\x00\x00\x1e\x00\x00\x00\
    \x09\x00\x00\x00\x00\x00\x00\x00";

// A time, an unknown message, and order 5 with two bytes beyond its table, in one block of unit 1.
const LONGER: &[u8] = b"\x35\x00\x03\x01\x01\x00\x00\x00\x06\x20\x98\x85\x00\x00\x03\x99\x07\
    \x24\x21\x00\x00\x00\x00\x05\x00\x00\x00\x00\x00\x00\x00B\x64\x00\x00\x00IBM   \
    \xa0\x86\x01\x00\x00\x00\x00\x00\x01\xaa\xbb";

// Order 9, hidden and of a participant: sells 50 of ABCDEFGH at 12.3456. Then order 3: buys 7 of
// IBM at 10.
const HIDDEN: &[u8] = b"\x4a\x00\x02\x01\x01\x00\x00\x00\
    \x28\x2f\x00\x00\x00\x00\x09\x00\x00\x00\x00\x00\x00\x00S\x32\x00\x00\x00ABCDEFGH\
    \x40\xe2\x01\x00\x00\x00\x00\x00\x00CBOE\
    \x1a\x22\x00\x00\x00\x00\x03\x00\x00\x00\x00\x00\x00\x00B\x07\x00IBM   \xe8\x03\x01";

// At sequence 5 of unit 1: IBM is halted.
const HALT: &[u8] = b"\x1a\x00\x01\x01\x05\x00\x00\x00\
    \x12\x31\x00\x00\x00\x00IBM     H0  ";

// Two statuses of IBM, one of AAPL between them, and a Unit Clear, in one block of unit 1. The one
// between has a space, a byte that is no printing one, other reserved bytes and a byte more.
const HALTS: &[u8] = b"\x45\x00\x04\x01\x01\x00\x00\x00\
    \x12\x31\x00\x00\x00\x00IBM     H0  \
    \x13\x31\x07\x00\x00\x00AAPL     \xff\x00\x01\x02\
    \x12\x31\x00\x00\x00\x00IBM     Q1  \x06\x97\x00\x00\x00\x00";

// A block with a byte more than its messages.
const SPARE: &[u8] = b"\x09\x00\x00\x01\x01\x00\x00\x00\x00";

pub(crate) const FIRST_LINE: &str = "block 1 unit 1 first 1 count 1; current 1\n";

pub(crate) const DELETED_TEXT: &str = "block 1 unit 1 first 1 count 1; current 1\n\
    block 2 unit 1 first 2 count 1; current 2\n\
    block 3 unit 1 first 4 count 0; behind 2 of 3\n\
    block 4 unit 1 first 3 count 1; current 3\n\
    book unit 1 at 3 second 34200 orders 0\n";

// The blocks of a stream, and what is printed of it.
static STREAMS: [(&[&[u8]], &str); 11] = [
    (&[], ""),
    (
        &[b"\x08\x00\x00\x01\x01\x00\x00\x00"],
        "block 1 unit 1 first 1 count 0; current 0\n\
        book unit 1 at 0 second - orders 0\n",
    ),
    (
        &[b"\x08\x00\x00\x01\x00\x00\x00\x00"],
        "block 1 unit 1 first 0 count 0; silent\n\
        book unit 1 at 0 second - orders 0\n",
    ),
    (&[TIME, ADD, BEAT, DELETE], DELETED_TEXT),
    (
        &[TIME, ADD, BEAT, EXECUTE],
        "block 1 unit 1 first 1 count 1; current 1\n\
        block 2 unit 1 first 2 count 1; current 2\n\
        block 3 unit 1 first 4 count 0; behind 2 of 3\n\
        block 4 unit 1 first 3 count 1; current 3\n\
        book unit 1 at 3 second 34200 orders 1\n\
        order 5 B 70 IBM 10.0000\n",
    ),
    (
        &[LONGER],
        "block 1 unit 1 first 1 count 3; current 3\n\
        book unit 1 at 3 second 34200 orders 1\n\
        order 5 B 100 IBM 10.0000\n",
    ),
    (
        &[HIDDEN],
        "block 1 unit 1 first 1 count 2; current 2\n\
        book unit 1 at 2 second - orders 2\n\
        order 3 B 7 IBM 10.0000\n\
        order 9 S 50 ABCDEFGH 12.3456 hidden mpid=CBOE\n",
    ),
    (
        &[HALTS],
        "block 1 unit 1 first 1 count 4; current 4\n\
        book unit 1 at 4 second - orders 0\n\
        status AAPL \\x20 \\xff\n\
        status IBM Q 1\n",
    ),
    (
        &[b"\x0e\x00\x01\x01\xfe\xff\xff\xff\x06\x20\x98\x85\x00\x00"],
        "block 1 unit 1 first 4294967294 count 1; behind 0 of 4294967294\n\
        book unit 1 at 0 second - orders 0\n",
    ),
    (
        &[TIME, TIME],
        "block 1 unit 1 first 1 count 1; current 1\n\
        block 2 unit 1 first 1 count 1; current 1\n\
        book unit 1 at 1 second 34200 orders 0\n",
    ),
    (
        &[
            b"\x08\x00\x00\xff\x01\x00\x00\x00",
            b"\x0e\x00\x01\x02\x02\x00\x00\x00\x06\x20\x02\x00\x00\x00",
            TIME,
            b"\x0e\x00\x01\x02\x01\x00\x00\x00\x06\x20\x01\x00\x00\x00",
            ADD,
        ],
        "block 1 unit 255 first 1 count 0; current 0\n\
        block 2 unit 2 first 2 count 1; behind 0 of 2\n\
        block 3 unit 1 first 1 count 1; current 1\n\
        block 4 unit 2 first 1 count 1; current 2\n\
        block 5 unit 1 first 2 count 1; current 2\n\
        book unit 1 at 2 second 34200 orders 1\n\
        order 5 B 100 IBM 10.0000\n\
        book unit 2 at 2 second 2 orders 0\n\
        book unit 255 at 0 second - orders 0\n",
    ),
];

// The blocks of a faulty stream, what is printed of it, and its fault.
static FAULTY_STREAMS: [(&[&[u8]], &str, &str); 7] = [
    (
        &[b"\x0e\x00\x01\x01\x01\x00\x00\x00\x06\x20\x98\x85\x00"],
        "",
        "pitch: bad input at byte 0: truncated, has 13 of 14\n",
    ),
    (
        &[b"\x0e\x00\x01\x01\x01"],
        "",
        "pitch: bad input at byte 0: truncated, has 5 of 8\n",
    ),
    (
        &[TIME, b"\x08\x00\x00"],
        FIRST_LINE,
        "pitch: bad input at byte 14: truncated, has 3 of 8\n",
    ),
    (
        &[TIME, b"\x09\x00\x01\x01\x02\x00\x00\x00\x01"],
        FIRST_LINE,
        "pitch: bad input at byte 22: tiny message of length 1\n",
    ),
    (&[SPARE], "", "pitch: bad input at byte 8: spare bytes\n"),
    (
        &[b"\x08\x00\x02\x01\xfe\xff\xff\xff", TIME],
        "",
        "pitch: bad input at byte 0: sequence 4294967294 count 2 past the last\n",
    ),
    (
        &[TIME, SPARE, ADD],
        FIRST_LINE,
        "pitch: bad input at byte 22: spare bytes\n",
    ),
];

// A short add, a long add, as a venue writes them.
pub(crate) const ADDS: &[u8] = b"\x44\x00\x02\x01\x01\x00\x00\x00\
    \x1a\x22\x00\x00\x00\x00\x01\x00\x00\x00\x00\x00\x00\x00B\x64\x00IBM   \xff\xff\x01\
    \x22\x21\x00\x00\x00\x00\x02\x00\x00\x00\x00\x00\x00\x00B\x64\x00\x00\x00IBM   \
    \x00\x00\x64\x00\x00\x00\x00\x00\x01";

// A clock of five bytes, and a short add whose side is `Z`, unsequenced.
const UNREAD: &[u8] = b"\x27\x00\x02\x07\x00\x00\x00\x00\x05\x20\x98\x85\x00\
    \x1a\x22\x00\x00\x00\x00\x01\x00\x00\x00\x00\x00\x00\x00Z\x64\x00IBM   \xff\xff\x01";

// A trade in the expanded form, and the end of the session.
const TRADE: &[u8] = b"\x39\x00\x02\x02\x09\x00\x00\x00\
    \x2b\x30\x01\x00\x00\x00\x04\x00\x00\x00\x00\x00\x00\x00S\x05\x00\x00\x00GAMMADLT\
    \x40\xe2\x01\x00\x00\x00\x00\x00\x11\x00\x00\x00\x00\x00\x00\x00\x06\x2d\x02\x00\x00\x00";

// The blocks of a stream, and what `show` prints of it.
static SHOWN: [(&[&[u8]], &str); 7] = [
    (&[], ""),
    (
        &[TIME, b"\x0b\x00\x01\x01\x02\x00\x00\x00\x03\x99\x07", BEAT],
        "block 1 unit 1 first 1 count 1\n\
        1 time second=34200\n\
        block 2 unit 1 first 2 count 1\n\
        2 other kind=99 length=3\n\
        block 3 unit 1 first 4 count 0\n",
    ),
    (
        &[ADDS],
        "block 1 unit 1 first 1 count 2\n\
        1 add-short offset=0 id=1 side=B quantity=100 symbol=IBM price=655.3500 flags=01\n\
        2 add-long offset=0 id=2 side=B quantity=100 symbol=IBM price=655.3600 flags=01\n",
    ),
    (
        &[LONGER, DELETE],
        "block 1 unit 1 first 1 count 3\n\
        1 time second=34200\n\
        2 other kind=99 length=3\n\
        3 add-long offset=0 id=5 side=B quantity=100 symbol=IBM price=10.0000 flags=01 extra=2\n\
        block 2 unit 1 first 3 count 1\n\
        3 delete offset=0 id=5\n",
    ),
    (
        &[UNREAD],
        "block 1 unit 7 first 0 count 2\n\
        - short kind=20 needs=6 has=5\n\
        - bad-side kind=22 byte=5a\n",
    ),
    (
        &[HIDDEN, TRADE],
        "block 1 unit 1 first 1 count 2\n\
        1 add-expanded offset=0 id=9 side=S quantity=50 symbol=ABCDEFGH price=12.3456 flags=00 participant=CBOE\n\
        2 add-short offset=0 id=3 side=B quantity=7 symbol=IBM price=10.0000 flags=01\n\
        block 2 unit 2 first 9 count 2\n\
        9 trade-expanded offset=1 id=4 side=S quantity=5 symbol=GAMMADLT price=12.3456 execution=17\n\
        10 end offset=2\n",
    ),
    (
        &[HALT],
        "block 1 unit 1 first 5 count 1\n\
        5 trading-status offset=0 symbol=IBM halt=H sho=0\n",
    ),
];

// A faulty stream, what `show` prints of it, and its fault.
static SHOWN_IN_PART: [(&[&[u8]], &str, &str); 1] = [(
    &[TIME, SPARE],
    "block 1 unit 1 first 1 count 1\n1 time second=34200\n",
    "pitch: bad input at byte 22: spare bytes\n",
)];

#[test]
fn each_stream_has_its_text_in_pieces_of_any_size(rt: HostRuntime) {
    for piece in [1, 2, 7, 35, 65536] {
        all_are_done(&rt, rt.alloc(), "follow", piece, &STREAMS);
        all_are_refused(&rt, rt.alloc(), "follow", piece, &FAULTY_STREAMS);
    }
}

#[test]
fn each_message_is_shown(rt: HostRuntime) {
    for piece in [1, 7, 65536] {
        all_are_done(&rt, rt.alloc(), "show", piece, &SHOWN);
        all_are_refused(&rt, rt.alloc(), "show", piece, &SHOWN_IN_PART);
    }
}

// Sequences 1, 3, 5, 7, 6, 2, 3, 4 and 5 of unit 1, each the second of its own number.
const SHUFFLED: [&[u8]; 9] = [
    b"\x0e\x00\x01\x01\x01\x00\x00\x00\x06\x20\x01\x00\x00\x00",
    b"\x0e\x00\x01\x01\x03\x00\x00\x00\x06\x20\x03\x00\x00\x00",
    b"\x0e\x00\x01\x01\x05\x00\x00\x00\x06\x20\x05\x00\x00\x00",
    b"\x0e\x00\x01\x01\x07\x00\x00\x00\x06\x20\x07\x00\x00\x00",
    b"\x0e\x00\x01\x01\x06\x00\x00\x00\x06\x20\x06\x00\x00\x00",
    b"\x0e\x00\x01\x01\x02\x00\x00\x00\x06\x20\x02\x00\x00\x00",
    b"\x0e\x00\x01\x01\x03\x00\x00\x00\x06\x20\x03\x00\x00\x00",
    b"\x0e\x00\x01\x01\x04\x00\x00\x00\x06\x20\x04\x00\x00\x00",
    b"\x0e\x00\x01\x01\x05\x00\x00\x00\x06\x20\x05\x00\x00\x00",
];

const HELD_BY_TWO: &str = "block 1 unit 1 first 1 count 1; current 1\n\
    block 2 unit 1 first 3 count 1; behind 1 of 3\n\
    block 3 unit 1 first 5 count 1; behind 1 of 5\n\
    block 4 unit 1 first 7 count 1 overflow; behind 1 of 7\n\
    block 5 unit 1 first 6 count 1; behind 1 of 7\n\
    block 6 unit 1 first 2 count 1; behind 2 of 7\n\
    block 7 unit 1 first 3 count 1; behind 3 of 7\n\
    block 8 unit 1 first 4 count 1; behind 4 of 7\n\
    block 9 unit 1 first 5 count 1; current 7\n\
    book unit 1 at 7 second 7 orders 0\n";

const HELD_BY_MORE: &str = "block 1 unit 1 first 1 count 1; current 1\n\
    block 2 unit 1 first 3 count 1; behind 1 of 3\n\
    block 3 unit 1 first 5 count 1; behind 1 of 5\n\
    block 4 unit 1 first 7 count 1; behind 1 of 7\n\
    block 5 unit 1 first 6 count 1; behind 1 of 7\n\
    block 6 unit 1 first 2 count 1; behind 3 of 7\n\
    block 7 unit 1 first 3 count 1; behind 3 of 7\n\
    block 8 unit 1 first 4 count 1; current 7\n\
    block 9 unit 1 first 5 count 1; current 7\n\
    book unit 1 at 7 second 7 orders 0\n";

// The shuffled sequences, and what is printed of them with a hold of two and with one of more.
static HELD_IN_TWO: [(&[&[u8]], &str); 1] = [(&SHUFFLED, HELD_BY_TWO)];

static HELD_IN_MORE: [(&[&[u8]], &str); 1] = [(&SHUFFLED, HELD_BY_MORE)];

#[test]
fn words_say_how_many_are_held(rt: HostRuntime) {
    for line in ["follow --hold=2", "follow --hold 2"] {
        all_are_done(&rt, rt.alloc(), line, 35, &HELD_IN_TWO);
    }
    for line in ["follow --hold 4", "follow"] {
        all_are_done(&rt, rt.alloc(), line, 35, &HELD_IN_MORE);
    }
}

const USAGE: &str =
    "pitch: usage: follow | show | pack | replay | storm | drill | demo | relay | quotes | audit\n";

// Words that are no form leave the 56 bytes of the input.
fn leaves_the_input<R: Threads + Wait + Clock + Sync + Abort>(rt: &R, alloc: Global, line: &str) {
    let mut outcome = run(rt, alloc, line, &[TIME, ADD], 65536);
    assert!(rt; outcome.is(ExitStatus::Usage, b"", USAGE));
    assert!(rt; outcome.left() == 56);
}

#[test]
fn words_that_are_no_form_leave_the_input(rt: HostRuntime) {
    for line in ["", "follow --", "follow --hold 0", "help", "followed"] {
        leaves_the_input(&rt, rt.alloc(), line);
    }
}
