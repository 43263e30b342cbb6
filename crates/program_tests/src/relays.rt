//! Merged streams, and what `relay` writes of them.
ghost use Rattle.std.specs.Prelude.{◌<◌};

use crate::runs::{ends_so, run};
use crate::streams::{ADD, DELETE, TIME};
use pitch_tool::ExitStatus;
use std::alloc::Global;
use std::process::Abort;
use std::sync::Wait;
use std::thread::Threads;
use std::time::Clock;

// A heartbeat of unit 1 whose next sequence is 3.
const BEAT: &[u8] = b"\x08\x00\x00\x01\x03\x00\x00\x00";

// An image through 2 of unit 1 can be had.
const AVAILABLE: &[u8] = b"\x0e\x00\x01\x01\x00\x00\x00\x00\x06\x80\x02\x00\x00\x00";

// It is sent, and promises one order.
const REPLY: &[u8] = b"\x13\x00\x01\x01\x00\x00\x00\x00\
    \x0b\x82\x02\x00\x00\x00\x01\x00\x00\x00\x41";

// Order 5 of the image: buys 100 of IBM at 10.
const IMAGE: &[u8] = b"\x22\x00\x01\x01\x00\x00\x00\x00\
    \x1a\x22\x00\x00\x00\x00\x05\x00\x00\x00\x00\x00\x00\x00B\x64\x00IBM   \xe8\x03\x01";

// It ends.
const FINISHED: &[u8] = b"\x0e\x00\x01\x01\x00\x00\x00\x00\x06\x83\x02\x00\x00\x00";

// What is sent of it: Unit Clear and the order, at sequences 1 and 2.
const SENT: &[u8] = b"\x28\x00\x02\x01\x01\x00\x00\x00\x06\x97\x00\x00\x00\x00\
    \x1a\x22\x00\x00\x00\x00\x05\x00\x00\x00\x00\x00\x00\x00B\x64\x00IBM   \xe8\x03\x01";

// The same, and the deletion at sequence 3.
const SENT_THEN: &[u8] = b"\x28\x00\x02\x01\x01\x00\x00\x00\x06\x97\x00\x00\x00\x00\
    \x1a\x22\x00\x00\x00\x00\x05\x00\x00\x00\x00\x00\x00\x00B\x64\x00IBM   \xe8\x03\x01\
    \x16\x00\x01\x01\x03\x00\x00\x00\x0e\x29\x00\x00\x00\x00\x05\x00\x00\x00\x00\x00\x00\x00";

// The time of units 1 and 2, each as its first message.
const TIMES: &[u8] = b"\x0e\x00\x01\x01\x01\x00\x00\x00\x06\x20\x98\x85\x00\x00\
    \x0e\x00\x01\x02\x01\x00\x00\x00\x06\x20\x98\x85\x00\x00";

// The blocks of a stream, and what is written of it.
static STREAMS: [(&[&[u8]], &[u8]); 6] = [
    (&[], b""),
    (&[BEAT, AVAILABLE, REPLY, IMAGE, FINISHED], SENT),
    (
        &[BEAT, AVAILABLE, REPLY, IMAGE, FINISHED, DELETE],
        SENT_THEN,
    ),
    // an image that was not advertised is not asked for
    (&[BEAT, REPLY, IMAGE, FINISHED], b""),
    (&[TIME, TIME], TIME),
    // each unit has sequences of its own
    (&[TIMES], TIMES),
];

// At sequences 3 and 4 of unit 1: IBM is halted, and a message of an unknown type.
const HALT: &[u8] = b"\x1d\x00\x02\x01\x03\x00\x00\x00\
    \x12\x31\x00\x00\x00\x00IBM     H0  \x03\x99\x07";

// At sequence 5 of unit 1: 30 shares of order 5 are executed.
const EXECUTE: &[u8] = b"\x22\x00\x01\x01\x05\x00\x00\x00\
    \x1a\x23\x00\x00\x00\x00\x05\x00\x00\x00\x00\x00\x00\x00\x1e\x00\x00\x00\
    \x09\x00\x00\x00\x00\x00\x00\x00";

// The image through 4 of unit 1 can be had.
const OFFER: &[u8] = b"\x0e\x00\x01\x01\x00\x00\x00\x00\x06\x80\x04\x00\x00\x00";

// It is sent, and promises one order.
const PROMISE: &[u8] = b"\x13\x00\x01\x01\x00\x00\x00\x00\
    \x0b\x82\x04\x00\x00\x00\x01\x00\x00\x00\x41";

// The image and its end, in one block: the time, the order and the status.
const WHOLE: &[u8] = b"\x48\x00\x04\x01\x00\x00\x00\x00\x06\x20\x98\x85\x00\x00\
    \x22\x21\x00\x00\x00\x00\x05\x00\x00\x00\x00\x00\x00\x00B\x64\x00\x00\x00IBM   \
    \xa0\x86\x01\x00\x00\x00\x00\x00\x01\x12\x31\x00\x00\x00\x00IBM     H0  \
    \x06\x83\x04\x00\x00\x00";

// A whole day, and what a capture has of it that begins in its middle.
const DAY: &[&[u8]] = &[TIME, ADD, HALT, EXECUTE];

const MIDDAY: &[&[u8]] = &[BEAT, OFFER, PROMISE, WHOLE, EXECUTE];

// The book that each leaves.
const BOOK: &str = "book unit 1 at 5 second 34200 orders 1\n\
    order 5 B 70 IBM 10.0000\n\
    status IBM H 0\n";

// Each stream is relayed so.
fn all_are_relayed<R: Threads + Wait + Clock + Sync + Abort>(
    rt: &R,
    alloc: Global,
    piece: usize,
    streams: &[(&[&[u8]], &[u8])],
)
    requires { 0 < piece }
{
    for (blocks, sent) in streams {
        ends_so(
            rt,
            alloc,
            "relay",
            blocks,
            piece,
            (ExitStatus::Done, *sent, ""),
        );
    }
}

#[test]
fn streams_are_relayed(rt: HostRuntime) {
    for piece in [1, 7, 65536] {
        all_are_relayed(&rt, rt.alloc(), piece, &STREAMS);
    }
}

const CUT: &[&[u8]] = &[TIME, b"\x08\x00\x00"];

const CUT_SAID: &str = "pitch: bad input at byte 14: truncated, has 3 of 8\n";

#[test]
fn a_cut_block_ends_a_relay(rt: HostRuntime) {
    let wanted = (ExitStatus::BadInput, TIME, CUT_SAID);
    ends_so(&rt, rt.alloc(), "relay", CUT, 7, wanted);
}

// What is followed of these blocks ends with this book.
fn ends_with_book<R: Threads + Wait + Clock + Sync + Abort>(
    rt: &R,
    alloc: Global,
    blocks: &[&[u8]],
    book: &str,
) {
    let followed = run(rt, alloc, "follow", blocks, 65536);
    assert!(rt; followed.written().ends_with(book.as_bytes()));
}

#[test]
fn a_day_from_its_middle_is_relayed_and_followed(rt: HostRuntime) {
    ends_with_book(&rt, rt.alloc(), DAY, BOOK);
    let relayed = run(&rt, rt.alloc(), "relay", MIDDAY, 65536);
    ends_with_book(&rt, rt.alloc(), &[relayed.written()], BOOK);
}
