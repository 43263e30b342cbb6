//! Spin Servers: requests and their replies, an image sent whole, and hostile bytes.

use order_book::{UnitBook, image_of};
use pitch_messages::{Raw, RawList};
use spin_server::{Account, CloseCause, Closed, ImageShelf, SpinServer};
use std::alloc::Global;
use std::process::Abort;
use unit_packets::BlockError;

pub(crate) const LOGIN: &[u8] = b"\x1e\0\x01\x01\0\0\0\0\x16\x010001FEED  PITCH     ";

const ADD: &[u8; 26] = b"\x1a\x22\0\0\0\0\x01\0\0\0\0\0\0\0B\x64\0ABC   \x10\x27\x01";

pub(crate) fn server(rt: &impl Abort, alloc: Global, in_use: bool) -> SpinServer {
    let mut accounts = Vec::new(alloc);
    let account = Account {
        sub: *b"0001",
        user: *b"FEED",
        password: *b"PITCH     ",
    };
    accounts.push(account).expect(rt, "memory");
    SpinServer::make(alloc, 1, accounts, in_use)
}

// A request for 3 after the image, and its reply.
const AFTERWARDS: (&[u8], &[u8]) = (
    b"\x0e\0\x01\x01\0\0\0\0\x06\x81\x03\0\0\0",
    b"\x13\0\x01\x01\0\0\0\0\x0b\x82\x03\0\0\0\x03\0\0\0A",
);

// The add of an order of 100 shares.
fn add(id: u8) -> [u8; 26] {
    let mut add = *ADD;
    add[6] = id;
    add
}

// Pushes the add of an order.
fn push(rt: &impl Abort, shelf: &mut ImageShelf, id: u8) {
    let raw = Raw::from_bytes(&add(id)).expect(rt, "a raw");
    assert!(rt; shelf.pushed() < 4294967294);
    shelf.push(&raw).expect(rt, "memory");
}

// A shelf of so many adds, each advertised as soon as it was pushed.
pub(crate) fn shelf(rt: &impl Abort, alloc: Global, count: u8) -> ImageShelf {
    let mut shelf = ImageShelf::make(alloc);
    for id in 0..count {
        push(rt, &mut shelf, id + 1);
        shelf.advertise().expect(rt, "memory");
    }
    shelf
}

#[test]
fn a_shelf_keeps_no_message_before_it_advertises(rt: HostRuntime) {
    let mut shelf = ImageShelf::make(rt.alloc());
    push_twelve(&rt, &mut shelf);
    assert!(rt; (shelf.pushed(), shelf.retained()) == (12, 0));
    drop(shelf);
}

fn push_twelve(rt: &impl Abort, shelf: &mut ImageShelf) {
    for id in 0..12u8 {
        push(rt, shelf, id + 1);
    }
}

// What is fed, and what is replied to it: a login, a request for 2, and two requests for 12.
const REQUESTS: [(&[u8], &[u8]); 3] = [
    (
        LOGIN,
        b"\x0b\0\x01\x01\0\0\0\0\x03\x02A\x0e\0\x01\x01\0\0\0\0\x06\x80\x0c\0\0\0",
    ),
    (
        b"\x0e\0\x01\x01\0\0\0\0\x06\x81\x02\0\0\0",
        b"\x13\0\x01\x01\0\0\0\0\x0b\x82\x02\0\0\0\0\0\0\0O",
    ),
    (
        b"\x0e\0\x01\x01\0\0\0\0\x06\x81\x0c\0\0\0\x0e\0\x01\x01\0\0\0\0\x06\x81\x0c\0\0\0",
        b"\x13\0\x01\x01\0\0\0\0\x0b\x82\x0c\0\0\0\x0c\0\0\0A\x13\0\x01\x01\0\0\0\0\x0b\x82\x0c\0\0\0\0\0\0\0S",
    ),
];

// Feeds requests, and compares what is replied to each.
fn ask(
    rt: &impl Abort,
    server: &mut SpinServer,
    shelf: &mut ImageShelf,
    reply: &mut Vec<u8>,
    requests: &[(&[u8], &[u8])],
) {
    for (fed, replied) in requests {
        reply.clear();
        server.feed(fed, shelf, reply).expect(rt, "memory");
        assert!(rt; reply.as_slice() == *replied);
    }
    reply.clear();
}

// The block of an image of twelve orders.
fn image_of_twelve(rt: &impl Abort, alloc: Global) -> Vec<u8> {
    let mut image = Vec::new(alloc);
    image
        .extend_from_slice(b"\x40\x01\x0c\x01\0\0\0\0")
        .expect(rt, "memory");
    for id in 0..12 {
        image.extend_from_slice(&add(id + 1)).expect(rt, "memory");
    }
    image
}

// What follows the image: that it has finished, the sequence that was told of while it was sent,
// and at the second tick a heartbeat.
const AFTER_IMAGE: &[u8] = b"\x0e\0\x01\x01\0\0\0\0\x06\x83\x0c\0\0\0\
    \x0e\0\x01\x01\0\0\0\0\x06\x80\x0c\0\0\0\x08\0\0\x01\0\0\0\0";

#[test]
fn an_image_of_twelve_messages(rt: HostRuntime) {
    let mut shelf = shelf(&rt, rt.alloc(), 12);
    assert!(rt; shelf.retained() == 9);
    let mut server = server(&rt, rt.alloc(), false);
    let mut reply = Vec::new(rt.alloc());
    ask(&rt, &mut server, &mut shelf, &mut reply, &REQUESTS);
    sends(
        &rt,
        &mut server,
        &mut reply,
        &image_of_twelve(&rt, rt.alloc()),
    );
    ends_its_image(&rt, &mut server, &mut reply);
    ask(&rt, &mut server, &mut shelf, &mut reply, &[AFTERWARDS]);
    drop(server);
    drop(shelf);
}

// The image is sent, and before it nothing of what is told meanwhile.
fn sends(rt: &impl Abort, server: &mut SpinServer, reply: &mut Vec<u8>, image: &[u8]) {
    server.tell(13, reply).expect(rt, "memory");
    assert!(rt; reply.len() == 0);
    assert!(rt; server.pump(reply) == Ok(true));
    assert!(rt; reply.as_slice() == image);
    reply.clear();
}

// The rest of a spin, and two ticks.
fn ends_its_image(rt: &impl Abort, server: &mut SpinServer, reply: &mut Vec<u8>) {
    assert!(rt; server.pump(reply) == Ok(false));
    server.tell(12, reply).expect(rt, "memory");
    server.tick(reply).expect(rt, "memory");
    server.tick(reply).expect(rt, "memory");
    assert!(rt; reply.as_slice() == AFTER_IMAGE);
}

// Bytes that are fed to a new server, in use or not; the status of its last reply, and why it
// closes.
struct Case {
    in_use: bool,
    fed: &'static [&'static [u8]],
    status: Option<u8>,
    closed: Option<(CloseCause, u64)>,
}

const CASES: [Case; 9] = [
    Case {
        in_use: false,
        fed: &[b"\x1e\0\x01\x01\0\0\0\0\x16\x010009FEED  PITCH     "],
        status: Some(b'S'),
        closed: Some((CloseCause::Refused { status: b'S' }, 8)),
    },
    Case {
        in_use: false,
        fed: &[b"\x1e\0\x01\x01\0\0\0\0\x16\x010001FEED  PASTE     "],
        status: Some(b'N'),
        closed: Some((CloseCause::Refused { status: b'N' }, 8)),
    },
    Case {
        in_use: true,
        fed: &[LOGIN],
        status: Some(b'B'),
        closed: Some((CloseCause::Refused { status: b'B' }, 8)),
    },
    Case {
        in_use: false,
        fed: &[LOGIN, LOGIN],
        status: Some(b'B'),
        closed: Some((CloseCause::Refused { status: b'B' }, 38)),
    },
    Case {
        in_use: false,
        fed: &[LOGIN, b"\x0d\0\x01\x01\0\0\0\0\x05\x81\x01\0\0"],
        status: Some(b'A'),
        closed: Some((CloseCause::Short, 38)),
    },
    Case {
        in_use: false,
        fed: &[b"\x0e\0\x01\x01\0\0\0\0\x06\x81\x01\0\0\0"],
        status: None,
        closed: Some((CloseCause::NotLoggedIn, 8)),
    },
    Case {
        in_use: false,
        fed: &[b"\x08\0\0\0\x01\0\0\0"],
        status: None,
        closed: Some((CloseCause::Sequenced, 0)),
    },
    Case {
        in_use: false,
        fed: &[b"\x07\0\0\0\0\0\0\0"],
        status: None,
        closed: Some((
            CloseCause::Block(BlockError::LengthBelowHeader { length: 7 }),
            0,
        )),
    },
    // A type that is not read, and a block that is not whole.
    Case {
        in_use: false,
        fed: &[b"\x0b\0\x01\0\0\0\0\0\x03\x99\x07", b"\xff\xff\0\0\0\0\0\0"],
        status: None,
        closed: None,
    },
];

// Feeds a case to a new server, and compares the last status and why it closes.
fn ends_so(rt: &impl Abort, alloc: Global, case: &Case) {
    let mut shelf = ImageShelf::make(alloc);
    let mut server = server(rt, alloc, case.in_use);
    let mut reply = Vec::new(alloc);
    for piece in case.fed {
        server
            .feed(piece, &mut shelf, &mut reply)
            .expect(rt, "memory");
    }
    let closed = case.closed.map(|(cause, place)| Closed { cause, place });
    assert!(rt; reply.last().copied() == case.status && server.closed() == closed);
    drop(server);
    drop(shelf);
}

fn all_end_so(rt: &impl Abort, alloc: Global, cases: &[Case]) {
    for case in cases {
        ends_so(rt, alloc, case);
    }
}

#[test]
fn hostile_and_refused(rt: HostRuntime) {
    all_end_so(&rt, rt.alloc(), &CASES);
}

#[test]
fn the_image_of_the_empty_book_is_empty(rt: HostRuntime) {
    let book = UnitBook::make(rt.alloc());
    let mut out = RawList::make(rt.alloc());
    assert!(rt; image_of(rt.alloc(), &book, &mut out) == Ok(0));
    assert!(rt; out.len() == 0);
}
