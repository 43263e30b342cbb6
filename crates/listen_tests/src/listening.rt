//! Runs of a listener over lines A and B, with the numbers 0 and 1.

use live_listen::{Counts, ListenError, ListenSetup, listen};
use memory_devices::MemorySink;
use pitch_fields::HoldLimit;
use scripted_nets::{NetStep, ScriptedLive};
use std::process::Abort;
use std::rt::HostRuntime;

// The time 34200 of unit 1, its message 1; and heartbeats of the units 1 and 2.
const TIME: &[u8] = b"\x0e\0\x01\x01\x01\0\0\0\x06\x20\x98\x85\0\0";

const BEAT: &[u8] = b"\x08\0\0\x01\x02\0\0\0";

const OTHER: &[u8] = b"\x08\0\0\x02\x01\0\0\0";

// The time, a heartbeat of unit 2, and three bytes that begin no block.
const MIXED: &[u8] =
    b"\x0e\0\x01\x01\x01\0\0\0\x06\x20\x98\x85\0\0\x08\0\0\x02\x01\0\0\0\xff\xff\xff";

const FIRST: &[u8] = b"block 1 unit 1 first 1 count 1; current 1\n";

const FIRST_TWO: &[u8] = b"block 1 unit 1 first 1 count 1; current 1\n\
    block 2 unit 1 first 1 count 1; current 1\n";

// What a run came to.
#[derive(Drop)]
struct Came {
    answer: Result<Counts, ListenError>,
    text: Vec<u8>,
    calls: u64,
}

// A setup of so many lines, where these units are named.
fn setup_of<R: Abort + AllocGlobal>(
    rt: &R,
    lines: u16,
    units: &[u8],
    hold: u32,
) -> Option<ListenSetup> {
    let hold = HoldLimit::of(hold)?;
    let units = Vec::from_slice(rt.alloc(), units).expect(rt, "memory");
    ListenSetup::make(lines, units, hold)
}

// Hears two lines by such a script. The call of the net with that number fails, and that put.
fn hear_lines<R: Abort + AllocGlobal>(
    rt: &R,
    steps: &[NetStep],
    units: &[u8],
    failing: u64,
    failing_put: u64,
) -> Came {
    let setup = setup_of(rt, 2, units, 16).expect(rt, "a setup");
    let calls = Vec::from_slice(rt.alloc(), &[failing]).expect(rt, "memory");
    let mut net = ScriptedLive::make(rt.alloc(), steps, calls).expect(rt, "memory");
    let puts = Vec::from_slice(rt.alloc(), &[failing_put]).expect(rt, "memory");
    let mut out = MemorySink::make(rt.alloc(), 1024, puts);
    let answer = listen(rt.alloc(), &setup, &mut net, &mut out);
    let text = Vec::from_slice(rt.alloc(), out.written()).expect(rt, "memory");
    Came {
        answer,
        text,
        calls: net.called(),
    }
}

// Both lines have the same datagram, and then A one without bytes and a heartbeat.
const TWICE: [NetStep; 6] = [
    NetStep::Turn,
    NetStep::Comes(0, MIXED),
    NetStep::Comes(1, MIXED),
    NetStep::Turn,
    NetStep::Comes(0, b""),
    NetStep::Comes(0, BEAT),
];

#[test]
fn blocks_of_named_units_are_heard(rt: HostRuntime) {
    let came = hear_lines(&rt, &TWICE, b"\x01", 0, 0);
    let counts = Counts {
        datagrams: 4,
        faulty: 3,
        blocks: 3,
        stray: 2,
    };
    assert!(rt; came.answer == Ok(counts));
    let text = b"block 1 unit 1 first 1 count 1; current 1\n\
        block 2 unit 1 first 1 count 1; current 1\n\
        block 3 unit 1 first 2 count 0; current 1\n\
        book unit 1 at 1 second 34200 orders 0\n";
    assert!(rt; came.text.as_slice() == text.as_slice());
    // A wait, each line until it is quiet, and that once more; then the wait that is over.
    assert!(rt; came.calls == 5 + 5 + 1);
}

const ONCE: [NetStep; 3] = [
    NetStep::Turn,
    NetStep::Comes(0, TIME),
    NetStep::Comes(1, OTHER),
];

#[test]
fn blocks_of_every_unit_are_heard(rt: HostRuntime) {
    let came = hear_lines(&rt, &ONCE, b"", 0, 0);
    let counts = Counts {
        datagrams: 2,
        faulty: 0,
        blocks: 2,
        stray: 0,
    };
    assert!(rt; came.answer == Ok(counts));
    let text = b"block 1 unit 1 first 1 count 1; current 1\n\
        block 2 unit 2 first 1 count 0; current 0\n\
        book unit 1 at 1 second 34200 orders 0\n\
        book unit 2 at 0 second - orders 0\n";
    assert!(rt; came.text.as_slice() == text.as_slice());
}

// Line A has 70 datagrams, line B one, which is asked for after 64 of them.
#[test]
fn a_full_line_lets_the_other_have_its_turn(rt: HostRuntime) {
    let mut steps = [NetStep::Comes(0, BEAT); 72];
    steps[0] = NetStep::Turn;
    steps[65] = NetStep::Comes(1, BEAT);
    let came = hear_lines(&rt, &steps, b"", 0, 0);
    assert!(rt; matches!(&came.answer, Ok(counts) if counts.datagrams == 71));
    // The wait, 64 datagrams of A, and B's; a wait that does not, the other 6, and the last wait.
    assert!(rt; came.calls == 1 + 64 + 2 + 1 + 7 + 1 + 1);
}

#[test]
fn what_came_is_written_where_the_net_fails(rt: HostRuntime) {
    // The second call asks A, the fifth B after its datagram, the sixth waits.
    for (failing, text) in [
        (1, b"".as_slice()),
        (3, FIRST),
        (5, FIRST_TWO),
        (6, FIRST_TWO),
    ] {
        let came = hear_lines(&rt, &TWICE, b"\x01", failing, 0);
        assert!(rt; came.answer == Err(ListenError::Net));
        assert!(rt; came.text.as_slice() == text);
    }
}

#[test]
fn each_turn_is_written_before_the_next_wait(rt: HostRuntime) {
    for (failing_put, text, calls) in [(1, b"".as_slice(), 5), (2, FIRST_TWO, 10)] {
        let came = hear_lines(&rt, &TWICE, b"\x01", 0, failing_put);
        assert!(rt; came.answer == Err(ListenError::Write));
        assert!(rt; came.text.as_slice() == text);
        assert!(rt; came.calls == calls);
    }
}

#[test]
fn a_setup_has_a_line_and_a_hold(rt: HostRuntime) {
    for (lines, hold, is) in [
        (0, 16, false),
        (1, 0, false),
        (1, 1, true),
        (65535, 65536, true),
        (1, 65537, false),
    ] {
        assert!(rt; setup_of(&rt, lines, &[], hold).is_some() == is);
    }
}
