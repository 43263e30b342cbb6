//! Runs of a client that asks nobody, over two lines, which end once each unit that is named has
//! ended.

use live_recovery::{Account, Counts, RecoverError, RecoverSetup, recover};
use memory_devices::MemorySink;
use pitch_fields::HoldLimit;
use scripted_nets::{NetStep, ScriptedLive};
use std::process::Abort;
use std::rt::HostRuntime;

const NOBODY: Account = Account {
    sub: *b"    ",
    user: *b"    ",
    password: *b"          ",
};

// The times 34200 and 34201 of unit 7, its messages 1 and 2, and its End of Session as message 2
// and as message 3; that of unit 2 as its message 1.
const TIME_1: &[u8] = b"\x0e\0\x01\x07\x01\0\0\0\x06\x20\x98\x85\0\0";

const TIME_2: &[u8] = b"\x0e\0\x01\x07\x02\0\0\0\x06\x20\x99\x85\0\0";

const END_2: &[u8] = b"\x0e\0\x01\x07\x02\0\0\0\x06\x2d\0\0\0\0";

const END_3: &[u8] = b"\x0e\0\x01\x07\x03\0\0\0\x06\x2d\0\0\0\0";

const END_OF_2: &[u8] = b"\x0e\0\x01\x02\x01\0\0\0\x06\x2d\0\0\0\0";

fn copy<R: Abort + AllocGlobal>(rt: &R, bytes: &[u8]) -> Vec<u8> {
    Vec::from_slice(rt.alloc(), bytes).expect(rt, "memory")
}

// What a run came to.
#[derive(Drop)]
struct Came {
    answer: Result<Counts, RecoverError>,
    text: Vec<u8>,
    calls: u64,
}

// A run where these units are named.
fn run<R: Abort + AllocGlobal>(rt: &R, units: &[u8], steps: &[NetStep]) -> Came {
    let limit = HoldLimit::of(16).expect(rt, "a limit");
    let setup = RecoverSetup::make(2, Vec::new(rt.alloc()), copy(rt, units), NOBODY, limit).expect(
        rt, "a setup",
    );
    let failing = Vec::new(rt.alloc());
    let mut net = ScriptedLive::make(rt.alloc(), steps, failing).expect(rt, "memory");
    let mut out = MemorySink::make(rt.alloc(), 1024, Vec::new(rt.alloc()));
    let answer = recover(rt.alloc(), &setup, &mut net, &mut out);
    Came {
        answer,
        text: copy(rt, out.written()),
        calls: net.called(),
    }
}

// So many datagrams of one block came, all of units that are listened to.
fn counts_of(datagrams: u64) -> Counts {
    Counts {
        datagrams,
        faulty: 0,
        blocks: datagrams,
        stray: 0,
    }
}

// The last turn comes too late.
const ENDS: [NetStep; 6] = [
    NetStep::Turn,
    NetStep::Comes(0, TIME_1),
    NetStep::Comes(0, END_2),
    NetStep::Comes(1, END_2),
    NetStep::Turn,
    NetStep::Comes(1, END_OF_2),
];

const ENDED: &[u8] = b"block 1 unit 7 first 1 count 1; current 1\n\
    block 2 unit 7 first 2 count 1; current 2\n\
    block 3 unit 7 first 2 count 1; current 2\n\
    book unit 7 at 2 second 34200 orders 0\n";

const ENDED_TWICE: &[u8] = b"block 1 unit 7 first 1 count 1; current 1\n\
    block 2 unit 7 first 2 count 1; current 2\n\
    block 3 unit 7 first 2 count 1; current 2\n\
    block 4 unit 2 first 1 count 1; current 1\n\
    book unit 2 at 1 second - orders 0\n\
    book unit 7 at 2 second 34200 orders 0\n";

#[test]
fn a_run_ends_once_each_named_unit_has(rt: HostRuntime) {
    // The wait, the first line until it is quiet, and the second one, which belongs to the turn.
    let came = run(&rt, &[7], &ENDS);
    assert!(rt; came.answer == Ok(counts_of(3)));
    assert!(rt; came.text.as_slice() == ENDED);
    assert!(rt; came.calls == 1 + 3 + 2);
    // The other unit ends a turn later. Where none is named the wait is over a turn later.
    for (units, calls) in [([2, 7].as_slice(), 6 + 4), (&[], 6 + 4 + 1)] {
        let came = run(&rt, units, &ENDS);
        assert!(rt; came.answer == Ok(counts_of(4)));
        assert!(rt; came.text.as_slice() == ENDED_TWICE);
        assert!(rt; came.calls == calls);
    }
}

// The End of Session comes before the message that it follows.
const BEHIND: [NetStep; 7] = [
    NetStep::Turn,
    NetStep::Comes(0, TIME_1),
    NetStep::Comes(0, END_3),
    NetStep::Turn,
    NetStep::Comes(1, TIME_2),
    NetStep::Turn,
    NetStep::Comes(1, TIME_2),
];

const CAUGHT_UP: &[u8] = b"block 1 unit 7 first 1 count 1; current 1\n\
    block 2 unit 7 first 3 count 1; behind 1 of 3\n\
    block 3 unit 7 first 2 count 1; current 3\n\
    book unit 7 at 3 second 34201 orders 0\n";

#[test]
fn a_unit_behind_its_end_goes_on(rt: HostRuntime) {
    let came = run(&rt, &[7], &BEHIND);
    assert!(rt; came.answer == Ok(counts_of(3)));
    assert!(rt; came.text.as_slice() == CAUGHT_UP);
    assert!(rt; came.calls == (1 + 3 + 1) + (1 + 1 + 2));
}
