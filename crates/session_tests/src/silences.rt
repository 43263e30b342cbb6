//! Silence: five ticks in a row close an end, and a closed end says no more.

use crate::links::ACCOUNT;
use crate::proxies::{LOGIN, NO_STORE, server};
use client_links::GapLink;
use grp_session::{CloseCause, Closed, GapBudget, GrpServer};
use spin_server::SpinServer;
use std::alloc::Global;
use std::process::Abort;
use unit_packets::DatagramList;

// A piece that is fed, the ticks after it, and how many bytes were sent by then.
type Turn = (&'static [u8], u8, usize);

// The turns of a new server that closes by silence at the last tick, and how many bytes it was fed.
struct Case {
    turns: &'static [Turn],
    place: u64,
}

const CASES: [Case; 3] = [
    Case {
        turns: &[(b"", 4, 32), (b"", 1, 32)],
        place: 0,
    },
    // Bytes begin the row anew.
    Case {
        turns: &[(b"", 4, 32), (b"\x08", 5, 72), (b"", 1, 72)],
        place: 1,
    },
    // An empty piece does not, and an answer keeps the next tick from beating.
    Case {
        turns: &[(LOGIN, 1, 11), (b"", 2, 27), (b"", 2, 43), (b"", 1, 43)],
        place: 30,
    },
];

fn turn(rt: &impl Abort, alloc: Global, server: &mut GrpServer, sent: &mut Vec<u8>, turn: &Turn) {
    let mut budget = GapBudget::make(10, 100, 10000);
    let mut lines = DatagramList::make(alloc);
    let (piece, ticks, length) = turn;
    server
        .feed(piece, &mut budget, NO_STORE, sent, &mut lines)
        .expect(rt, "memory");
    for _ in 0..*ticks {
        assert!(rt; server.closed().is_none());
        server.tick(sent).expect(rt, "memory");
    }
    assert!(rt; sent.len() == *length);
}

// Runs a case to its closing; what comes after that changes nothing.
fn falls_silent(rt: &impl Abort, alloc: Global, case: &Case) {
    let mut server = server(rt, alloc, false);
    let mut sent = Vec::new(alloc);
    for each in case.turns {
        turn(rt, alloc, &mut server, &mut sent, each);
    }
    let closed = Some(Closed {
        cause: CloseCause::Silent,
        place: case.place,
    });
    assert!(rt; server.closed() == closed);
    let length = sent.len();
    turn(rt, alloc, &mut server, &mut sent, &(LOGIN, 0, length));
    server.tick(&mut sent).expect(rt, "memory");
    assert!(rt; sent.len() == length && server.closed() == closed);
    drop(server);
}

fn all_fall_silent(rt: &impl Abort, alloc: Global, cases: &[Case]) {
    for case in cases {
        falls_silent(rt, alloc, case);
    }
}

#[test]
fn silence_is_in_a_row(rt: HostRuntime) {
    all_fall_silent(&rt, rt.alloc(), &CASES);
}

#[test]
fn a_closed_link_asks_nothing(rt: HostRuntime) {
    let mut sent = Vec::new(rt.alloc());
    let mut link = GapLink::make(rt.alloc(), &ACCOUNT, &mut sent).expect(&rt, "memory");
    for _ in 0..5u8 {
        link.tick(&mut sent).expect(&rt, "memory");
    }
    assert!(rt; link.closed().is_some());
    sent.clear();
    link.ask(1, 2, 3, &mut sent).expect(&rt, "memory");
    link.tick(&mut sent).expect(&rt, "memory");
    assert!(rt; sent.len() == 0);
}

#[test]
fn nothing_is_told_before_a_login(rt: HostRuntime) {
    let mut sent = Vec::new(rt.alloc());
    let mut server = SpinServer::make(rt.alloc(), 1, Vec::new(rt.alloc()), false);
    server.tell(1, &mut sent).expect(&rt, "memory");
    assert!(rt; sent.len() == 0);
}
