//! An image: the test carries the bytes between an end and a Spin Server.

use crate::ends::{ACCOUNT, connect, end_of, hear, pass_second, sent, take};
use pitch_messages::Raw;
use sending_end::{Ask, SendingEnd, Session, Status};
use spin_path::serve;
use spin_server::{ImageShelf, SpinServer};
use std::process::Abort;

const ADD: &[u8] = b"\x1a\x22\0\0\0\0\x07\0\0\0\0\0\0\0B\x64\0ABC   \x10\x27\x01";

// A heartbeat of unit 1, whose next message is the second.
const BEAT: &[u8] = b"\x08\0\0\x01\x02\0\0\0";

// A shelf with the image of one order.
fn shelf_of_one<R: Abort + AllocGlobal>(rt: &R) -> ImageShelf {
    let mut shelf = ImageShelf::make(rt.alloc());
    let raw = Raw::from_bytes(ADD).expect(rt, "a raw");
    assert!(rt; shelf.pushed() < 4294967294);
    shelf.push(&raw).expect(rt, "memory");
    shelf.advertise().expect(rt, "memory");
    shelf
}

fn server_of_one<R: Abort + AllocGlobal>(rt: &R) -> SpinServer {
    let mut accounts = Vec::new(rt.alloc());
    accounts.push(ACCOUNT).expect(rt, "memory");
    SpinServer::make(rt.alloc(), 1, accounts, false)
}

// All that a server says to these bytes, in two blocks at most.
fn answered<R: Abort + AllocGlobal>(
    rt: &R,
    server: &mut SpinServer,
    shelf: &mut ImageShelf,
    up: &[u8],
) -> Vec<u8> {
    let mut down = Vec::new(rt.alloc());
    serve(server, shelf, up, &mut down).expect(rt, "memory");
    assert!(rt; !serve(server, shelf, &[], &mut down).expect(rt, "memory"));
    down
}

// What waits for the server is carried to it, and its answer back.
fn carry<R: Abort + AllocGlobal>(
    rt: &R,
    server: &mut SpinServer,
    shelf: &mut ImageShelf,
    end: &mut SendingEnd,
) {
    let up = sent(rt, end, Session::SpinServer);
    let down = answered(rt, server, shelf, &up);
    take(rt, end, Session::SpinServer, &down);
}

// A heartbeat tells of a message, and a Spin Server is there.
fn lacks_one(rt: &impl Abort, end: &mut SendingEnd) {
    hear(rt, end, BEAT);
    assert!(rt; end.status() == Status::Behind { n: 0, top: 1 });
    connect(rt, end, Session::SpinServer);
    assert!(rt; end.has(Session::SpinServer) && !end.has(Session::Proxy));
}

// Once logged in, the end asks for the image at the next second.
fn asks(rt: &impl Abort, end: &mut SendingEnd) {
    assert!(rt; pass_second(rt, end) == Some(Ask::Spin { sequence: 1 }));
    assert!(rt; end.waiting(Session::Proxy) == 0);
    assert!(rt; end.waiting(Session::SpinServer) == 14);
}

// Without a Spin Server the end has what came.
fn has_one(rt: &impl Abort, end: &mut SendingEnd) {
    end.cut(Session::SpinServer);
    assert!(rt; !end.has(Session::SpinServer));
    assert!(rt; end.status() == Status::Current { n: 1 });
    assert!(rt; end.book().len() == 1);
}

// The end is current once the image came.
#[test]
fn an_end_comes_back_by_an_image(rt: HostRuntime) {
    let mut shelf = shelf_of_one(&rt);
    let mut server = server_of_one(&rt);
    let mut end = end_of(&rt, 1);
    lacks_one(&rt, &mut end);
    carry(&rt, &mut server, &mut shelf, &mut end);
    asks(&rt, &mut end);
    carry(&rt, &mut server, &mut shelf, &mut end);
    drop(server);
    drop(shelf);
    has_one(&rt, &mut end);
    drop(end);
}
