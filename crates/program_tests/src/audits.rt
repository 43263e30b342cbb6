//! Audits of printed reports.
use crate::runs::{all_are_done, all_are_refused};

// The number of the log's bytes, in eight bytes.
const NONE: &[u8] = b"\0\0\0\0\0\0\0\0";

const ONE_BLOCK: &[u8] = b"\x0e\0\0\0\0\0\0\0";

const TWO_BLOCKS: &[u8] = b"\x42\0\0\0\0\0\0\0";

// The time 34200 of unit 1, as its first message and as its second.
const FIRST: &[u8] = b"\x0e\0\x01\x01\x01\0\0\0\x06\x20\x98\x85\0\0";

const SECOND: &[u8] = b"\x0e\0\x01\x01\x02\0\0\0\x06\x20\x98\x85\0\0";

// The time of unit 2, as its first message.
const OTHER: &[u8] = b"\x0e\0\x01\x02\x01\0\0\0\x06\x20\x98\x85\0\0";

// An order and a trading status, as its second message and its third.
const ORDER_AND_STATUS: &[u8] =
    b"\x34\0\x02\x01\x02\0\0\0\x1a\x22\0\0\0\0\x05\0\0\0\0\0\0\0B\x64\0IBM   \xe8\x03\x01\x12\x31\0\0\0\0IBM     H0  ";

const BOOK: &[u8] = b"book unit 1 at 1 second 34200 orders 0";

const LATER_BOOK: &[u8] =
    b"current 3\nbook unit 1 at 3 second 34200 orders 1\norder 5 B 100 IBM 10.0000\nstatus IBM H 0\n";

// Inputs, and the line that is written of each.
static INPUTS: [(&[&[u8]], &str); 12] = [
    (&[NONE], "audit yes books 0\n"),
    (&[ONE_BLOCK, FIRST], "audit yes books 0\n"),
    (&[ONE_BLOCK, FIRST, BOOK], "audit yes books 1\n"),
    (&[ONE_BLOCK, FIRST, BOOK, b"\n"], "audit yes books 1\n"),
    // each unit has sequences of its own
    (
        &[
            b"\x1c\0\0\0\0\0\0\0",
            FIRST,
            OTHER,
            b"book unit 2 at 1 second 34200 orders 0",
        ],
        "audit yes books 1\n",
    ),
    (
        &[ONE_BLOCK, FIRST, b"book unit 1 at 1 second 34200 orders 1"],
        "audit no line 1\n",
    ),
    (
        &[ONE_BLOCK, FIRST, b"book unit 1 at 2 second 34200 orders 0"],
        "audit no line 1\n",
    ),
    (
        &[ONE_BLOCK, FIRST, BOOK, b"\norder 5 B 100 IBM 10.0000"],
        "audit no line 2\n",
    ),
    (
        &[TWO_BLOCKS, FIRST, ORDER_AND_STATUS, LATER_BOOK, BOOK],
        "audit yes books 2\n",
    ),
    (
        &[TWO_BLOCKS, FIRST, ORDER_AND_STATUS, BOOK, b"\n", LATER_BOOK],
        "audit yes books 2\n",
    ),
    (
        &[
            TWO_BLOCKS,
            FIRST,
            ORDER_AND_STATUS,
            LATER_BOOK,
            b"status IBM H 0\n",
        ],
        "audit no line 5\n",
    ),
    (
        &[
            TWO_BLOCKS,
            FIRST,
            ORDER_AND_STATUS,
            b"book unit 1 at 3 second 34200 orders 1\norder 5 B 100 IBM 10.0000\n",
        ],
        "audit no line 3\n",
    ),
];

// Inputs that are refused, what is written and what is said.
static REFUSED: [(&[&[u8]], &str, &str); 6] = [
    (
        &[],
        "",
        "pitch: bad input at byte 0: truncated, has 0 of 8\n",
    ),
    (
        &[b"\x0e\0\0\0\0\0\0"],
        "",
        "pitch: bad input at byte 0: truncated, has 7 of 8\n",
    ),
    // a log that is cut is judged before its blocks
    (
        &[TWO_BLOCKS, SECOND],
        "",
        "pitch: bad input at byte 8: truncated, has 14 of 66\n",
    ),
    (
        &[ONE_BLOCK, SECOND, BOOK],
        "",
        "pitch: bad input at byte 8: sequence 2 where 1 is next\n",
    ),
    (
        &[b"\x1c\0\0\0\0\0\0\0", FIRST, FIRST],
        "",
        "pitch: bad input at byte 22: sequence 1 where 2 is next\n",
    ),
    (
        &[b"\x0f\0\0\0\0\0\0\0", FIRST, b"\x0e"],
        "",
        "pitch: bad input at byte 22: truncated, has 1 of 8\n",
    ),
];

#[test]
fn reports_are_audited(rt: HostRuntime) {
    for piece in [1, 65536] {
        all_are_done(&rt, rt.alloc(), "audit", piece, &INPUTS);
    }
}

#[test]
fn faulty_logs_are_refused(rt: HostRuntime) {
    for piece in [1, 65536] {
        all_are_refused(&rt, rt.alloc(), "audit", piece, &REFUSED);
    }
}
