//! Runs of a live client that asks, over a line and a gap line, with the numbers 0 and 1, and the
//! proxy of unit 7, peer 0.

use live_recovery::{
    Account, Counts, Disagreement, Peer, RecoverError, RecoverSetup, Session, recover,
};
use memory_devices::MemorySink;
use pitch_fields::HoldLimit;
use scripted_nets::{NetStep, ScriptedLive};
use std::process::Abort;
use std::rt::HostRuntime;

const ACCOUNT: Account = Account {
    sub: *b"0001",
    user: *b"FEED",
    password: *b"PITCH     ",
};

// The times 34200, 34201 and 34202 of unit 7, its messages 1 to 3.
const TIME_1: &[u8] = b"\x0e\0\x01\x07\x01\0\0\0\x06\x20\x98\x85\0\0";

const TIME_2: &[u8] = b"\x0e\0\x01\x07\x02\0\0\0\x06\x20\x99\x85\0\0";

const TIME_3: &[u8] = b"\x0e\0\x01\x07\x03\0\0\0\x06\x20\x9a\x85\0\0";

// Another message 2, as a venue sends it that starts anew.
const OTHER_2: &[u8] = b"\x0e\0\x01\x07\x02\0\0\0\x06\x20\x9b\x85\0\0";

const RUBBISH: &[u8] = b"\xff\xff\xff";

// The proxy accepts the login, or refuses it; and it accepts the request for message 2.
const ACCEPTED: &[u8] = b"\x0b\0\x01\0\0\0\0\0\x03\x02A";

const REFUSED: &[u8] = b"\x0b\0\x01\0\0\0\0\0\x03\x02N";

const ANSWERED: &[u8] = b"\x12\0\x01\0\0\0\0\0\x0a\x04\x07\x02\0\0\0\x01\0A";

// What a run came to.
#[derive(Drop)]
struct Came {
    answer: Result<Counts, RecoverError>,
    text: Vec<u8>,
    calls: u64,
}

fn copy<R: Abort + AllocGlobal>(rt: &R, bytes: &[u8]) -> Vec<u8> {
    Vec::from_slice(rt.alloc(), bytes).expect(rt, "memory")
}

fn setup_of<R: Abort + AllocGlobal>(rt: &R, hold: u32) -> Option<RecoverSetup> {
    let hold = HoldLimit::of(hold)?;
    let proxy = Peer {
        unit: 7,
        session: Session::Proxy,
    };
    let peers = Vec::from_slice(rt.alloc(), &[proxy]).expect(rt, "memory");
    RecoverSetup::make(2, peers, copy(rt, &[7]), ACCOUNT, hold)
}

// Such a run. The call of the net with that number fails, and that put of the sink.
fn run<R: Abort + AllocGlobal>(rt: &R, steps: &[NetStep], failing: u64, failing_put: u64) -> Came {
    let setup = setup_of(rt, 16).expect(rt, "a setup");
    let calls = Vec::from_slice(rt.alloc(), &[failing]).expect(rt, "memory");
    let mut net = ScriptedLive::make(rt.alloc(), steps, calls).expect(rt, "memory");
    let puts = Vec::from_slice(rt.alloc(), &[failing_put]).expect(rt, "memory");
    let mut out = MemorySink::make(rt.alloc(), 1024, puts);
    let answer = recover(rt.alloc(), &setup, &mut net, &mut out);
    Came {
        answer,
        text: copy(rt, out.written()),
        calls: net.called(),
    }
}

// Message 2 is lost. The proxy is called, it accepts the login, and is asked at the next second;
// message 2 comes on the gap line, and then its answer.
const LOST: [NetStep; 10] = [
    NetStep::Turn,
    NetStep::Comes(0, TIME_1),
    NetStep::Comes(0, TIME_3),
    NetStep::Turn,
    NetStep::Brings(0, ACCEPTED),
    NetStep::Second,
    NetStep::Turn,
    NetStep::Comes(1, TIME_2),
    NetStep::Comes(1, RUBBISH),
    NetStep::Brings(0, ANSWERED),
];

// Each turn has its wait, both lines until they are quiet, and then the proxy: it is called and the
// login put; its bytes are taken; the request is put; its bytes are taken. Then the wait is over.
const CALLS: u64 = (1 + 4 + 2) + (1 + 2 + 2) + (1 + 2 + 2) + (1 + 4 + 2) + 1;

const FIRST_TWO: &[u8] = b"block 1 unit 7 first 1 count 1; current 1\n\
    block 2 unit 7 first 3 count 1; behind 1 of 3\n";

const ALL_LINES: &[u8] = b"block 1 unit 7 first 1 count 1; current 1\n\
    block 2 unit 7 first 3 count 1; behind 1 of 3\n\
    block 3 unit 7 first 2 count 1; current 3\n";

const WHOLE: &[u8] = b"block 1 unit 7 first 1 count 1; current 1\n\
    block 2 unit 7 first 3 count 1; behind 1 of 3\n\
    block 3 unit 7 first 2 count 1; current 3\n\
    book unit 7 at 3 second 34202 orders 0\n";

const THREE_COPIES: &[u8] = b"block 1 unit 7 first 1 count 1; current 1\n\
    block 2 unit 7 first 2 count 1; current 2\n\
    block 3 unit 7 first 1 count 1; current 2\n";

#[test]
fn what_is_lost_is_asked_for(rt: HostRuntime) {
    let came = run(&rt, &LOST, 0, 0);
    let counts = Counts {
        datagrams: 4,
        faulty: 1,
        blocks: 3,
        stray: 0,
    };
    assert!(rt; came.answer == Ok(counts));
    assert!(rt; came.text.as_slice() == WHOLE);
    assert!(rt; came.calls == CALLS);
}

#[test]
fn what_came_is_written_where_the_net_fails(rt: HostRuntime) {
    // The first wait, the second, the gap line behind message 2, and the last wait.
    for (failing, text) in [
        (1, b"".as_slice()),
        (8, FIRST_TWO),
        (21, ALL_LINES),
        (25, ALL_LINES),
    ] {
        let came = run(&rt, &LOST, failing, 0);
        assert!(rt; came.answer == Err(RecoverError::Net));
        assert!(rt; came.text.as_slice() == text);
        assert!(rt; came.calls == failing);
    }
}

#[test]
fn each_turn_is_written_before_the_next_wait(rt: HostRuntime) {
    for (failing_put, text, calls) in [(1, b"".as_slice(), 7), (2, FIRST_TWO, 24)] {
        let came = run(&rt, &LOST, 0, failing_put);
        assert!(rt; came.answer == Err(RecoverError::Write));
        assert!(rt; came.text.as_slice() == text);
        assert!(rt; came.calls == calls);
    }
}

#[test]
fn a_connection_is_begun_again(rt: HostRuntime) {
    // It is refused, ends, or is closed by the client whose login is refused; a second later it is
    // begun again, and its login put. Each turn has a wait, and two lines that are quiet.
    for (steps, calls) in [
        (
            [NetStep::Turn, NetStep::Refuses(0), NetStep::Second].as_slice(),
            4 + 5,
        ),
        (
            &[
                NetStep::Turn,
                NetStep::Turn,
                NetStep::Ends(0),
                NetStep::Second,
            ],
            5 + 4 + 5,
        ),
        (
            &[
                NetStep::Turn,
                NetStep::Turn,
                NetStep::Brings(0, REFUSED),
                NetStep::Second,
            ],
            5 + 5 + 5,
        ),
    ] {
        let came = run(&rt, steps, 0, 0);
        assert!(rt; came.answer.is_ok());
        assert!(rt; came.text.is_empty());
        assert!(rt; came.calls == calls + 1);
    }
}

#[test]
fn copies_that_differ_end_the_run(rt: HostRuntime) {
    // Messages 1 and 2 come on the line, and on the gap line message 1 and another message 2.
    let steps = [
        NetStep::Turn,
        NetStep::Comes(0, TIME_1),
        NetStep::Comes(0, TIME_2),
        NetStep::Comes(1, TIME_1),
        NetStep::Comes(1, OTHER_2),
        NetStep::Comes(1, TIME_3),
    ];
    let came = run(&rt, &steps, 0, 0);
    let told = Disagreement {
        unit: 7,
        sequence: 2,
    };
    assert!(rt; came.answer == Err(RecoverError::Disagree(told)));
    assert!(rt; came.text.as_slice() == THREE_COPIES);
    // The wait, the line until it is quiet, and two datagrams of the gap line.
    assert!(rt; came.calls == 1 + 3 + 2);
}

#[test]
fn a_setup_has_a_hold(rt: HostRuntime) {
    for (hold, is) in [(0, false), (1, true), (65536, true), (65537, false)] {
        assert!(rt; setup_of(&rt, hold).is_some() == is);
    }
}
