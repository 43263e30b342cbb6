//! Proxies: logins, each status of a gap request, each limit, and hostile bytes.

use crate::stores::filled;
use gap_store::GapStore;
use grp_session::{Account, CloseCause, Closed, GapBudget, GrpServer};
use pitch_messages::session::{SessionMessage, write};
use std::alloc::Global;
use std::process::Abort;
use unit_packets::{BlockError, DatagramList, put_session};

pub(crate) const LOGIN: &[u8] = b"\x1e\0\x01\0\0\0\0\0\x16\x010001FEED  PITCH     ";

pub(crate) fn server(rt: &impl Abort, alloc: Global, in_use: bool) -> GrpServer {
    let mut accounts = Vec::new(alloc);
    let account = Account {
        sub: *b"0001",
        user: *b"FEED",
        password: *b"PITCH     ",
    };
    accounts.push(account).expect(rt, "memory");
    GrpServer::make(alloc, 1, accounts, in_use)
}

// Bytes that are fed to a new server, in use or not; what it replies, and why it closes.
struct Case {
    in_use: bool,
    fed: &'static [&'static [u8]],
    reply: &'static [u8],
    closed: Option<Closed>,
}

const CASES: [Case; 10] = [
    Case {
        in_use: false,
        fed: &[b"\x1e\0\x01\0\0\0\0\0\x16\x010009FEED  PITCH     "],
        reply: b"\x0b\0\x01\0\0\0\0\0\x03\x02S",
        closed: Some(Closed {
            cause: CloseCause::Refused { status: b'S' },
            place: 8,
        }),
    },
    Case {
        in_use: false,
        fed: &[b"\x1e\0\x01\0\0\0\0\0\x16\x010001FEED  PASTE     "],
        reply: b"\x0b\0\x01\0\0\0\0\0\x03\x02N",
        closed: Some(Closed {
            cause: CloseCause::Refused { status: b'N' },
            place: 8,
        }),
    },
    Case {
        in_use: true,
        fed: &[LOGIN],
        reply: b"\x0b\0\x01\0\0\0\0\0\x03\x02B",
        closed: Some(Closed {
            cause: CloseCause::Refused { status: b'B' },
            place: 8,
        }),
    },
    Case {
        in_use: false,
        fed: &[LOGIN, LOGIN],
        reply: b"\x0b\0\x01\0\0\0\0\0\x03\x02A\x0b\0\x01\0\0\0\0\0\x03\x02B",
        closed: Some(Closed {
            cause: CloseCause::Refused { status: b'B' },
            place: 38,
        }),
    },
    Case {
        in_use: false,
        fed: &[b"\x08\0\0\0\x01\0\0\0"],
        reply: b"",
        closed: Some(Closed {
            cause: CloseCause::Sequenced,
            place: 0,
        }),
    },
    Case {
        in_use: false,
        fed: &[b"\x11\0\x01\0\0\0\0\0\x09\x03\x01\x01\0\0\0\x01\0"],
        reply: b"",
        closed: Some(Closed {
            cause: CloseCause::NotLoggedIn,
            place: 8,
        }),
    },
    Case {
        in_use: false,
        fed: &[b"\x07\0\0\0\0\0\0\0"],
        reply: b"",
        closed: Some(Closed {
            cause: CloseCause::Block(BlockError::LengthBelowHeader { length: 7 }),
            place: 0,
        }),
    },
    // A type that is not read, and a block that is not whole.
    Case {
        in_use: false,
        fed: &[b"\x0b\0\x01\0\0\0\0\0\x03\x99\x07"],
        reply: b"",
        closed: None,
    },
    Case {
        in_use: false,
        fed: &[b"\xff\xff\0\0\0\0\0\0"],
        reply: b"",
        closed: None,
    },
    Case {
        in_use: false,
        fed: &[LOGIN, b"\x10\0\x01\0\0\0\0\0\x08\x03\x01\x01\0\0\0\x01\0"],
        reply: b"\x0b\0\x01\0\0\0\0\0\x03\x02A",
        closed: Some(Closed {
            cause: CloseCause::Short,
            place: 38,
        }),
    },
];

// Feeds a case to a new server without a gap store, and compares what it replies.
fn ends_so(rt: &impl Abort, alloc: Global, case: &Case) {
    let mut budget = GapBudget::make(10, 100, 10000);
    let mut gap_line = DatagramList::make(alloc);
    let mut server = server(rt, alloc, case.in_use);
    let mut reply = Vec::new(alloc);
    for piece in case.fed {
        server
            .feed(piece, &mut budget, NO_STORE, &mut reply, &mut gap_line)
            .expect(rt, "memory");
    }
    assert!(rt; reply.as_slice() == case.reply && server.closed() == case.closed);
    drop(server);
    assert!(rt; gap_line.len() == 0);
}

fn all_end_so(rt: &impl Abort, alloc: Global, cases: &[Case]) {
    for case in cases {
        ends_so(rt, alloc, case);
    }
}

pub(crate) const NO_STORE: Option<&mut GapStore> = None;

#[test]
fn hostile_and_refused(rt: HostRuntime) {
    all_end_so(&rt, rt.alloc(), &CASES);
}

// A request's unit, first sequence and count, and its status.
type Request = ((u8, u32, u16), u8);

// A server that has logged its client in, and what it looks up, counts and replays.
#[derive(Drop)]
struct Proxy {
    server: GrpServer,
    store: GapStore,
    budget: GapBudget,
    line: DatagramList,
}

// What a proxy replies to a block.
fn fed(rt: &impl Abort, alloc: Global, proxy: &mut Proxy, block: &[u8]) -> Vec<u8> {
    let mut reply = Vec::new(alloc);
    let lookup = Some(&mut proxy.store);
    proxy
        .server
        .feed(
            block,
            &mut proxy.budget,
            lookup,
            &mut reply,
            &mut proxy.line,
        )
        .expect(rt, "memory");
    reply
}

fn logged_in(rt: &impl Abort, alloc: Global, budget: GapBudget) -> Proxy {
    let mut proxy = Proxy {
        server: server(rt, alloc, false),
        store: filled(rt, alloc),
        budget,
        line: DatagramList::make(alloc),
    };
    let _accepted = fed(rt, alloc, &mut proxy, LOGIN);
    proxy
}

// The block of a request.
fn asked(rt: &impl Abort, alloc: Global, unit: u8, sequence: u32, count: u16) -> Vec<u8> {
    let request = SessionMessage::GapRequest {
        unit,
        sequence,
        count,
    };
    let mut block = Vec::new(alloc);
    put_session(0, &write(&request), &mut block).expect(rt, "memory");
    block
}

// The block of a reply to a request of one byte of unit, four of sequence and two of count.
fn replied(unit: u8, sequence: u32, count: u16, status: u8) -> [u8; 18] {
    let [a, b, c, d] = sequence.to_le_bytes();
    let [e, f] = count.to_le_bytes();
    [
        18, 0, 1, 0, 0, 0, 0, 0, 10, 4, unit, a, b, c, d, e, f, status,
    ]
}

// Makes requests, and compares the reply to each.
fn ask(rt: &impl Abort, alloc: Global, proxy: &mut Proxy, requests: &[Request]) {
    for ((unit, sequence, count), status) in requests {
        let block = asked(rt, alloc, *unit, *sequence, *count);
        let reply = fed(rt, alloc, proxy, &block);
        let expected = replied(*unit, *sequence, *count, *status);
        assert!(rt; reply.as_slice() == expected.as_slice());
    }
}

// The status of a request where there is no gap store.
fn ask_without(rt: &impl Abort, alloc: Global, proxy: &mut Proxy) -> Option<u8> {
    let block = asked(rt, alloc, 1, 299, 2);
    let mut reply = Vec::new(alloc);
    proxy
        .server
        .feed(
            &block,
            &mut proxy.budget,
            NO_STORE,
            &mut reply,
            &mut proxy.line,
        )
        .expect(rt, "memory");
    reply.last().copied()
}

const REFUSED: [Request; 6] = [
    ((2, 150, 1), b'I'),
    ((1, 150, 101), b'C'),
    ((1, 150, 0), b'O'),
    ((1, 0, 1), b'O'),
    ((1, 100, 1), b'O'),
    ((1, 300, 2), b'O'),
];

const ACCEPTED: Request = ((1, 299, 2), b'A');

const TEN: [Request; 11] = [
    ACCEPTED,
    ACCEPTED,
    ACCEPTED,
    ACCEPTED,
    ACCEPTED,
    ACCEPTED,
    ACCEPTED,
    ACCEPTED,
    ACCEPTED,
    ACCEPTED,
    ((1, 299, 2), b'S'),
];

// The two messages that are accepted.
const ANSWER: &[u8] = b"\x0c\0\x02\x01\x2b\x01\0\0\x02\x2b\x02\x2c";

// Whether so many datagrams were sent, the first of which has these bytes.
fn has_sent(line: &DatagramList, count: usize, bytes: &[u8]) -> bool {
    match line.get(0) {
        Some(datagram) => datagram.bytes() == bytes && line.len() == count,
        None => false,
    }
}

#[test]
fn each_status_in_turn(rt: HostRuntime) {
    let mut proxy = logged_in(&rt, rt.alloc(), GapBudget::make(10, 100, 10000));
    ask(&rt, rt.alloc(), &mut proxy, &REFUSED);
    assert!(rt; proxy.line.len() == 0);
    ask(&rt, rt.alloc(), &mut proxy, &TEN);
    proxy.budget.tick();
    ask(&rt, rt.alloc(), &mut proxy, &[ACCEPTED]);
    assert!(rt; ask_without(&rt, rt.alloc(), &mut proxy) == Some(b'U'));
    assert!(rt; has_sent(&proxy.line, 11, ANSWER));
    drop(proxy);
}

// Limits for a second, a minute and a day; what is answered to a second request, to one after 59
// ticks, and to one after a minute.
type Limited = ((u32, u32, u32), [u8; 3]);

const LIMITS: [Limited; 5] = [
    ((1, 9, 9), *b"SAA"),
    ((9, 1, 9), *b"MMA"),
    ((9, 9, 1), *b"DDD"),
    ((1, 1, 9), *b"MMA"),
    ((1, 1, 1), *b"DDD"),
];

// A proxy holds its limits.
fn holds(rt: &impl Abort, alloc: Global, proxy: &mut Proxy, statuses: [u8; 3]) {
    let [then, late, later] = statuses;
    ask(rt, alloc, proxy, &[ACCEPTED, ((1, 299, 2), then)]);
    for _ in 0..59u8 {
        proxy.budget.tick();
    }
    ask(rt, alloc, proxy, &[((1, 299, 2), late)]);
    proxy.budget.tick();
    ask(rt, alloc, proxy, &[((1, 299, 2), later)]);
}

fn limits_hold(rt: &impl Abort, alloc: Global, limits: &[Limited]) {
    for ((second, minute, day), statuses) in limits {
        let mut proxy = logged_in(rt, alloc, GapBudget::make(*second, *minute, *day));
        holds(rt, alloc, &mut proxy, *statuses);
        drop(proxy);
    }
}

#[test]
fn each_limit_in_turn(rt: HostRuntime) {
    limits_hold(&rt, rt.alloc(), &LIMITS);
}

// A range that is gone is not there, whatever the budget says.
#[test]
fn what_is_gone_comes_before_the_limits(rt: HostRuntime) {
    let mut proxy = logged_in(&rt, rt.alloc(), GapBudget::make(0, 0, 0));
    let requests = [((1, 100, 1), b'O'), ((1, 150, 1), b'D')];
    ask(&rt, rt.alloc(), &mut proxy, &requests);
    drop(proxy);
}
