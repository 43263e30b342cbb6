//! Captures of datagrams, and what `follow --pcap` prints of them.
ghost use Rattle.std.specs.Prelude.{◌<◌};

use crate::runs::{all_are_refused, ends_so};
use crate::streams::FIRST_LINE;
use pitch_tool::ExitStatus;
use std::alloc::Global;
use std::process::Abort;
use std::sync::Wait;
use std::thread::Threads;
use std::time::Clock;

// The header of a capture, little endian with microseconds, and big endian with nanoseconds.
pub(crate) const LITTLE: &[u8] =
    b"\xd4\xc3\xb2\xa1\x02\0\x04\0\0\0\0\0\0\0\0\0\0\0\x04\0\x01\0\0\0";

const BIG: &[u8] = b"\xa1\xb2\x3c\x4d\0\x02\0\x04\0\0\0\0\0\0\0\0\0\x04\0\0\0\0\0\x01";

// The head of a packet of 60 bytes.
pub(crate) const LITTLE_PACKET: &[u8] = b"\0\0\0\0\0\0\0\0\x3c\0\0\0\x3c\0\0\0";

const BIG_PACKET: &[u8] = b"\0\0\0\0\0\0\0\0\0\0\0\x3c\0\0\0\x3c";

// A frame of IPv4 and UDP to port 30,001, which carries the second 34,200 at sequence 1 of unit 1.
pub(crate) const FRAME: &[u8] = b"\x01\0\x5e\0\0\x01\x02\0\0\0\0\x01\x08\0\
    \x45\0\0\x2a\0\0\0\0\x40\x11\0\0\x0a\0\0\x01\xe0\0\0\x01\
    \x13\x88\x75\x31\0\x16\0\0\
    \x0e\0\x01\x01\x01\0\0\0\x06\x20\x98\x85\0\0\0\0\0\0";

// The same with two bytes more in the datagram.
const LONGER: &[u8] = b"\x01\0\x5e\0\0\x01\x02\0\0\0\0\x01\x08\0\
    \x45\0\0\x2c\0\0\0\0\x40\x11\0\0\x0a\0\0\x01\xe0\0\0\x01\
    \x13\x88\x75\x31\0\x18\0\0\
    \x0e\0\x01\x01\x01\0\0\0\x06\x20\x98\x85\0\0\0\0\0\0";

const BOOK: &str = "block 1 unit 1 first 1 count 1; current 1\n\
    book unit 1 at 1 second 34200 orders 0\n\
    packets 1 used 1 faulty 0\n";

const FAULTY: &str = "block 1 unit 1 first 1 count 1; current 1\n\
    book unit 1 at 1 second 34200 orders 0\n\
    packets 1 used 1 faulty 1\n";

// Words, a capture, and what is printed of it.
static CAPTURES: [(&str, &[&[u8]], &str); 5] = [
    ("follow --pcap", &[LITTLE, LITTLE_PACKET, FRAME], BOOK),
    ("follow --pcap", &[BIG, BIG_PACKET, FRAME], BOOK),
    ("follow --pcap", &[LITTLE, LITTLE_PACKET, LONGER], FAULTY),
    (
        "follow --pcap --port 30002",
        &[LITTLE, LITTLE_PACKET, FRAME],
        "packets 1 used 0 faulty 0\n",
    ),
    ("follow --pcap", &[LITTLE], "packets 0 used 0 faulty 0\n"),
];

// A faulty capture, what is printed of it, and its fault.
static FAULTS: [(&[&[u8]], &str, &str); 3] = [
    (
        &[],
        "",
        "pitch: bad input at byte 0: truncated, has 0 of 24\n",
    ),
    (
        &[b"\x0a\x0d\x0d\x0a\0\0\0\0\0\0\0\0\0\0\0\0\0\0\0\0\0\0\0\0"],
        "",
        "pitch: bad input at byte 0: magic 0a0d0d0a is no classic capture\n",
    ),
    (
        &[LITTLE, LITTLE_PACKET, FRAME, LITTLE_PACKET],
        FIRST_LINE,
        "pitch: bad input at byte 100: truncated, has 16 of 76\n",
    ),
];

// Each capture has its text, where at most `piece` bytes come at once.
fn all_are_followed<R: Threads + Wait + Clock + Sync + Abort>(
    rt: &R,
    alloc: Global,
    piece: usize,
    captures: &[(&str, &[&[u8]], &str)],
)
    requires { 0 < piece }
{
    for (line, bytes, text) in captures {
        let wanted = (ExitStatus::Done, text.as_bytes(), "");
        ends_so(rt, alloc, line, bytes, piece, wanted);
    }
}

#[test]
fn each_capture_has_its_text_in_pieces_of_any_size(rt: HostRuntime) {
    for piece in [1, 7, 65536] {
        all_are_followed(&rt, rt.alloc(), piece, &CAPTURES);
        all_are_refused(&rt, rt.alloc(), "follow --pcap", piece, &FAULTS);
    }
}
