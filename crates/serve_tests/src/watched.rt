//! What clients ask, as it is written of a net that looks on.

use crate::clients::{ASKED, LOGIN, RUBBISH, SPIN_LOGIN};
use crate::runs::run_watched;
use scripted_nets::NetStep;
use std::process::Abort;
use std::rt::HostRuntime;
use watched_venue::WatchTrouble;

// A login to a proxy, cut in mid-block, and a request for message 2 behind it.
const CUT: &[u8] = b"\x1e\0\x01\0\0\0\0\0\x16";

const REST: &[u8] = b"\x010001FEED  PITCH     \x11\0\x01\0\0\0\0\0\x09\x03\x01\x02\0\0\0\x01\0";

// Four clients: one of the proxy of unit 2 that sends rubbish, one of that of unit 1, one of the
// Spin Server of unit 1, and one that comes to the place of the first.
const STEPS: &[NetStep] = &[
    NetStep::Turn,
    NetStep::Types(b"1 time 33\n1 time 34\n"),
    NetStep::Knocks(0),
    NetStep::Brings(0, RUBBISH),
    NetStep::Knocks(128),
    NetStep::Brings(128, CUT),
    NetStep::Knocks(192),
    NetStep::Brings(192, SPIN_LOGIN),
    NetStep::Turn,
    NetStep::Knocks(0),
    NetStep::Brings(0, LOGIN),
    NetStep::Brings(128, REST),
    NetStep::Second,
    NetStep::Turn,
    NetStep::Brings(192, ASKED),
];

const LINES: &[u8] = b"unit 1 spin 3 login\n\
unit 2 grp 4 login\n\
unit 1 grp 2 login\n\
unit 1 grp 2 request 2 count 1\n\
unit 1 spin 3 spin 1\n";

// What is written where the put of this number fails, of those of 20 bytes.
fn writes<R: Abort + AllocGlobal>(
    rt: &R,
    failing: u64,
    lines: &[u8],
    trouble: Option<WatchTrouble>,
) -> u64 {
    let came = run_watched(rt, STEPS, failing);
    assert!(rt; came.answer == Ok(()));
    assert!(rt; came.lines.as_slice() == lines);
    assert!(rt; came.trouble == trouble);
    let called = came.called;
    drop(came);
    called
}

#[test]
fn each_message_that_asks_has_a_line(rt: HostRuntime) {
    let called = writes(&rt, 0, LINES, None);
    // A sink that fails changes no call.
    assert!(rt; called > 0);
    assert!(rt; writes(&rt, 1, b"", Some(WatchTrouble::Write)) == called);
    assert!(rt; writes(&rt, 4, &LINES[..58], Some(WatchTrouble::Write)) == called);
}
