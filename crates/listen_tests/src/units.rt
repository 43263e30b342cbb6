//! Two units of a live client: what comes to them, and what is printed of it.

use live_units::{Account, LiveUnits, Session, Taken};
use memory_devices::MemorySink;
use pitch_fields::HoldLimit;
use std::process::Abort;
use std::rt::HostRuntime;

const ACCOUNT: Account = Account {
    sub: *b"0001",
    user: *b"FEED",
    password: *b"PITCH     ",
};

// The time 34200 as message 1 of unit 7, and a heartbeat that tells of its fourth; message 1 of
// unit 2, a heartbeat of unit 3, and three bytes that begin no block.
const MIXED: &[u8] = b"\x0e\0\x01\x07\x01\0\0\0\x06\x20\x98\x85\0\0\x08\0\0\x07\x05\0\0\0\
    \x0e\0\x01\x02\x01\0\0\0\x06\x20\x99\x85\0\0\x08\0\0\x03\x01\0\0\0\xff\xff\xff";

// A login is accepted and the image through the fourth message advertised; it is sent, with the
// time and no order; and it ends.
const ADVERTISED: &[u8] = b"\x0b\0\x01\0\0\0\0\0\x03\x02A\x0e\0\x01\x07\0\0\0\0\x06\x80\x04\0\0\0";

const IMAGE: &[u8] = b"\x13\0\x01\x07\0\0\0\0\x0b\x82\x04\0\0\0\0\0\0\0A\
    \x0e\0\x01\x07\0\0\0\0\x06\x20\x98\x85\0\0\x0e\0\x01\x07\0\0\0\0\x06\x83\x04\0\0\0";

const TEXT: &[u8] = b"block 1 unit 7 first 1 count 1; current 1\n\
    block 2 unit 7 first 5 count 0; behind 1 of 4\n\
    block 3 unit 2 first 1 count 1; current 1\n\
    unit 7 image 4; current 4\n\
    book unit 2 at 1 second 34201 orders 0\n\
    book unit 7 at 4 second 34200 orders 0\n";

// A packet is lost, and an image makes up for it.
#[test]
fn a_unit_comes_back_by_an_image(rt: HostRuntime) {
    let alloc = rt.alloc();
    let limit = HoldLimit::of(16).expect(&rt, "a limit");
    let mut units = LiveUnits::make(alloc, &[7, 2], &ACCOUNT, limit).expect(&rt, "memory");
    let mut out = MemorySink::make(alloc, 1024, Vec::new(alloc));
    match units.hear_datagram(MIXED, &mut out) {
        Ok(passed) => assert!(rt; (passed.heard, passed.others, passed.rest) == (3, 1, 3)),
        Err(_) => assert!(rt; false),
    }
    units
        .connected(7, Session::SpinServer)
        .expect(&rt, "memory");
    assert!(rt; units.has(7, Session::SpinServer) && !units.has(2, Session::SpinServer));
    assert!(rt; units.waiting_bytes(7, Session::SpinServer).len() == 30);
    units.sent(7, Session::SpinServer, 30);
    assert!(rt; units.took(7, Session::SpinServer, ADVERTISED, &mut out) == Ok(Taken::Whole));
    units.second(7).expect(&rt, "memory");
    assert!(rt; units.waiting_bytes(7, Session::SpinServer).len() == 14);
    assert!(rt; units.took(7, Session::SpinServer, IMAGE, &mut out) == Ok(Taken::Whole));
    units.cut(7, Session::SpinServer);
    assert!(rt; units.waiting_bytes(7, Session::SpinServer).is_empty());
    assert!(rt; units.finish(alloc, &mut out) == Ok(()));
    assert!(rt; out.written() == TEXT);
}
